// A large valid text that is made from a number.
ghost use Rattle.std.specs.Prelude.{◌≡◌, ◌+◌, ◌<◌, ◌≤◌, ◌^◌, ◌%◌, ◌==◌, ◌++◌, ◌∷◌, [], codes, if◌then◌else◌, IfOk, OnOk};
ghost use Rattle.value_types.specs.ValueText.{padded};
ghost use Rattle.load_options.specs.declared.limits.TheConstants.{ROW_LIMIT};
ghost use Rattle.report_text.specs.MadeText.{made_day, made_note, made_row, made_text, row_number};

use crate::found::truth_text;
use crate::lines::push_number;
use csv_source::NoMemory;
use std::alloc::Global;
use text_pieces::Draft;

/// The most bytes that a row takes: numbers of 7, 3 and 10 digits, `false`, a date, and 17 bytes beside them.
const ROW_ROOM: usize = 52;

/// The number that a row is made of, of 32 bits.
fn row_number(number: u32, row: u64) -> u64
    requires within { row < ROW_LIMIT }
    ensures value { result ≡ row_number number row }
    ensures within { result < 2 ^ 32 }
{
    (u64::from(number) + row) * 2_654_435_761 % (1 << 32)
}

/// The byte of a digit.
fn glyph(digit: u64) -> u8
    requires { digit < 10 }
    ensures { result ≡ 48 + digit }
{
    b'0' + digit as u8
}

/// Appends the day of a row's number.
fn push_day(into: &mut Draft, x: u64) -> Result<(), NoMemory>
    requires within { x < 2 ^ 32 }
    ensures { OnOk result (into.new.text ≡ into.old.text ++ made_day x) }
{
    let month = 1 + x / 2 % 12;
    let day = 1 + x / 32 % 28;
    into.append(&[
        b'2',
        b'0',
        b'0',
        b'0',
        b'-',
        glyph(month / 10),
        glyph(month % 10),
        b'-',
        glyph(day / 10),
        glyph(day % 10),
    ])
}

/// What stands before a note's last number: a space, or LF in each sixteenth row.
fn gap(row: u64) -> u8
    ensures { result ∷ [] ≡ (if row % 16 == 15 then codes "\n" else codes " ") }
{
    if row % 16 == 15 { b'\n' } else { b' ' }
}

/// Appends the note of a row, from its quote to its quote.
fn push_note(into: &mut Draft, row: u64, x: u64) -> Result<(), NoMemory>
    ensures { OnOk result (into.new.text ≡ into.old.text ++ made_note row x) }
{
    into.append(b"\"note \"\"")?;
    push_number(into, x % 1000)?;
    into.append(b"\"\",")?;
    into.push(gap(row))?;
    push_number(into, x)?;
    into.push(b'"')
}

/// Appends a row.
fn push_row(into: &mut Draft, number: u32, row: u64) -> Result<(), NoMemory>
    requires within { row < ROW_LIMIT }
    ensures { OnOk result (into.new.text ≡ into.old.text ++ made_row number row) }
{
    let x = row_number(number, row);
    push_number(into, row)?;
    into.push(b',')?;
    into.append(truth_text(x % 2 == 1))?;
    into.push(b',')?;
    push_day(into, x)?;
    into.push(b',')?;
    push_note(into, row, x)?;
    into.push(b'\n')
}

/// A valid text from a number: the header `id,ok,day,note` and this many rows. The notes have doubled quotes, and each
/// sixteenth a line end.
pub fn make_text(alloc: Global, number: u32, rows: u64) -> Result<Vec<u8>, NoMemory>
    requires { rows ≤ ROW_LIMIT }
    ensures { IfOk result (λ text. text.items ≡ made_text number rows) }
{
    let mut text = Draft::new(alloc);
    text.reserve(15 + rows as usize * ROW_ROOM);
    text.append(b"id,ok,day,note\n")?;
    for row in 0..rows {
        push_row(&mut text, number, row)?;
    }
    Ok(text.into_text())
}
