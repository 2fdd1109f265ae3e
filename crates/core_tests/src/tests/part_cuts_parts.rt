//! The parts of files that are read in pieces of one byte, two, three, and whole.
ghost use Rattle.std.specs.Prelude.{◌+◌, ◌<◌, ◌≤◌, length};

use super::dialects::{commas, commented};
use byte_classes::Dialect;
use part_cuts::{CutRule, Cuts, Part, Tally};

/// A file: its head, the lines that end there, its data, and how many columns they have.
#[derive(Drop)]
struct File {
    head: &'static str,
    lines: u64,
    data: &'static str,
    columns: u64,
}

/// The most bytes of a head and of data.
const MOST: usize = 100;

fn part(byte: u64, len: u64, line: u64, rows: u64) -> Part {
    Part {
        byte,
        len,
        line,
        rows,
    }
}

fn tally(bytes: u64, lines: u64, rows: u64) -> Tally {
    Tally { bytes, lines, rows }
}

/// Reads data piece by piece, the two bytes behind each in sight. Answers whether there was memory.
fn pass_all(cuts: &mut Cuts, bytes: &[u8], piece: usize) -> bool
    requires some { 0 < piece }
    requires fits { cuts.old.tally.bytes + length bytes.now ≤ 200 }
{
    let mut at = 0;
    while at < bytes.len() {
        let count = piece.min(bytes.len() - at);
        let seen = (at + count + 2).min(bytes.len());
        if cuts.pass(&bytes[at..seen], count).is_err() {
            return false;
        }
        at += count;
    }
    true
}

fn has_parts(cuts: &Cuts, parts: &[Part], whole: Tally) -> bool {
    if cuts.tally() != whole || cuts.count() != parts.len() {
        return false;
    }
    for number in 0..parts.len() {
        if cuts.part(number) != parts[number] {
            return false;
        }
    }
    true
}

/// Whether a file has these parts and these bytes, lines and rows, whatever the pieces.
fn is_cut_into(
    rt: &HostRuntime,
    dialect: Dialect,
    file: File,
    size: u64,
    parts: &[Part],
    whole: Tally,
) -> bool
    requires size { (1 ≤ size) × (size ≤ 100) }
{
    let (head, data) = (file.head.as_bytes(), file.data.as_bytes());
    if head.len() > MOST || data.len() > MOST || file.lines > head.len() as u64 {
        return false;
    }
    for piece in [1, 2, 3, MOST] {
        let rule = CutRule {
            dialect,
            size,
            columns: file.columns,
        };
        let Ok(mut cuts) = Cuts::new(rt.alloc(), rule, head.len() as u64, file.lines) else {
            return false;
        };
        if !pass_all(&mut cuts, data, piece) || !has_parts(&cuts, parts, whole) {
            return false;
        }
    }
    true
}

/// A file without a head.
fn bare(data: &'static str, columns: u64) -> File {
    File {
        head: "",
        lines: 0,
        data,
        columns,
    }
}

#[test]
fn parts_begin_at_rows_outside_quotes(rt: HostRuntime) {
    let file = File {
        head: "id,note\n",
        lines: 1,
        data: "1,\"a\nb\"\n2,c\n\n3,d\n",
        columns: 2,
    };
    let parts = [part(8, 8, 2, 1), part(16, 9, 4, 2)];
    assert!(rt; is_cut_into(&rt, commas(&rt), file, 8, &parts, tally(25, 6, 3)));
}

#[test]
fn a_part_goes_up_to_the_first_row_behind_a_multiple(rt: HostRuntime) {
    let file = File {
        head: "id,note\n",
        lines: 1,
        data: "1,a\n2,c\nx,d\n",
        columns: 2,
    };
    let parts = [part(8, 4, 2, 1), part(12, 8, 3, 2)];
    assert!(rt; is_cut_into(&rt, commas(&rt), file, 12, &parts, tally(20, 4, 3)));
}

#[test]
fn comment_lines_go_with_the_part_before_them(rt: HostRuntime) {
    let file = File {
        head: "k\r\n",
        lines: 1,
        data: "\r\n1\r\n# x\r\n2\r\n",
        columns: 1,
    };
    let parts = [part(3, 2, 2, 1), part(5, 8, 3, 1), part(13, 3, 5, 1)];
    let commented = commented(&rt, commas(&rt));
    assert!(rt; is_cut_into(&rt, commented, file, 1, &parts, tally(16, 5, 3)));
}

#[test]
fn no_bytes_are_one_part(rt: HostRuntime) {
    let parts = [part(0, 0, 1, 0)];
    assert!(rt; is_cut_into(&rt, commas(&rt), bare("", 2), 8, &parts, tally(0, 0, 0)));
}

#[test]
fn blank_rows_count_where_there_is_one_column(rt: HostRuntime) {
    let data = "a\n\n\nb\n";
    let one = [part(0, 4, 1, 3), part(4, 2, 4, 1)];
    assert!(rt; is_cut_into(&rt, commas(&rt), bare(data, 1), 1, &one, tally(6, 4, 4)));
    let two = [part(0, 4, 1, 1), part(4, 2, 4, 1)];
    assert!(rt; is_cut_into(&rt, commas(&rt), bare(data, 2), 1, &two, tally(6, 4, 2)));
}

/// The row that begins with U+FEFF is no part, and the one with U+FEFE, which differs in its last byte, is one.
#[test]
fn no_part_begins_with_a_byte_order_mark(rt: HostRuntime) {
    let file = bare("a\n\u{FEFF}b\n\u{FEFE}c\n", 1);
    let parts = [part(0, 7, 1, 2), part(7, 5, 3, 1)];
    assert!(rt; is_cut_into(&rt, commas(&rt), file, 1, &parts, tally(12, 3, 3)));
}

#[test]
fn multiples_in_one_row_share_a_cut(rt: HostRuntime) {
    let file = bare("\"a\r\nb\"\r\rc\nd", 2);
    let parts = [part(0, 8, 1, 1), part(8, 2, 4, 1), part(10, 1, 5, 1)];
    assert!(rt; is_cut_into(&rt, commas(&rt), file, 2, &parts, tally(11, 4, 3)));
}
