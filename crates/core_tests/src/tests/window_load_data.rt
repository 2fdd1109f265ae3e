//! Small data in windows of a few ranges, read group by group and by stages.

use super::crew_contexts::{context_of, repeated};
use super::dialects::commas;
use csv_source::{MemorySource, OpenGate, Source};
use pipe_load::pipe_load;
use std::alloc::Global;
use std::process::Abort;
use std::sync::Wait;
use std::thread::Threads;
use value_types::ColumnType;
use window_load::{DataLoader, InputWindow, LoadStop, WindowRead, window_load};

/// How a text is read.
#[derive(Clone, Copy)]
struct Way {
    /// The bytes that are held before the data are read.
    head: usize,
    most: u64,
    range_size: u64,
    stop: bool,
    threads: u32,
    /// The call of the source that fails; none where it is 0.
    fails: u64,
}

/// What a load comes to: its rows, faults, line ends, bytes and ranges, its first reject's line and place, or why it ended.
#[derive(Clone, Copy, PartialEq, Eq)]
enum Told {
    All([u64; 5]),
    Stopped(u64, u64),
    Ended(LoadStop),
}

fn told_of(read: &Result<WindowRead, LoadStop>) -> Told {
    match read {
        Ok(WindowRead::All(read)) => Told::All([
            read.joined.table.rows() as u64,
            read.joined.book.all(),
            read.joined.line_ends,
            read.length,
            read.ranges,
        ]),
        Ok(WindowRead::Stopped(reject)) => Told::Stopped(reject.line, reject.byte_position),
        Err(stop) => Told::Ended(*stop),
    }
}

/// What a text comes to, by stages or group by group.
fn read_in<R: Threads + Wait + Sync + Abort>(
    rt: &R,
    alloc: Global,
    text: &[u8],
    way: Way,
    by_stages: bool,
) -> Result<WindowRead, LoadStop> {
    assert!(rt; way.most <= 1_000_000 && 0 < way.range_size && way.range_size <= 1_000_000);
    assert!(rt; 1 <= way.threads && way.threads <= 64);
    let context = context_of(alloc, commas(rt), ColumnType::Bigint, 30, way.stop)?;
    let mut source = MemorySource::new(alloc);
    source.put("f.csv", text)?;
    source.piece(1_000);
    source.fail_call(way.fails)?;
    assert!(rt; source.open("f.csv").is_ok());
    let mut window = InputWindow::new(alloc, way.most);
    window.fill_to(&mut source, way.head)?;
    let loader = DataLoader {
        rt,
        alloc,
        context: &context,
        range_size: way.range_size,
        stop: way.stop,
        threads: way.threads,
        gate: &OpenGate,
    };
    if by_stages {
        return pipe_load(&loader, window, 0, &mut source);
    }
    window_load(&loader, window, 0, &mut source)
}

/// Whether a text comes to what is wanted in both ways.
fn tells<R: Threads + Wait + Sync + Abort>(
    rt: &R,
    alloc: Global,
    text: &[u8],
    row: &(Way, Told),
) -> bool {
    told_of(&read_in(rt, alloc, text, row.0, false)) == row.1
        && told_of(&read_in(rt, alloc, text, row.0, true)) == row.1
}

/// Three good rows over five lines, a text that is no number, a missing field, and a byte behind a closed field.
const MIXED: &[u8] =
    b"1,plain\n2,\"line\nends, \"\"quoted\"\"\"\r\nx,no\r5\n7,\"a\nb\"\n8,\"c\"d\n";

/// Groups of 6,400 bytes, none of which is held before, of 250 times `MIXED`.
const WHOLE: Way = Way {
    head: 0,
    most: 1_000_000,
    range_size: 100,
    stop: false,
    threads: 64,
    fails: 0,
};

/// What those are, but for the number of ranges.
const ALL: Told = Told::All([750, 750, 2_000, 14_250, 143]);

const ROWS: [(Way, Told); 7] = [
    (WHOLE, ALL),
    (
        Way {
            head: 1_000_000,
            threads: 1,
            ..WHOLE
        },
        ALL,
    ),
    (
        Way {
            range_size: 1,
            threads: 2,
            ..WHOLE
        },
        Told::All([750, 750, 2_000, 14_250, 14_250]),
    ),
    (
        Way {
            stop: true,
            ..WHOLE
        },
        Told::Stopped(4, 36),
    ),
    (
        Way {
            stop: true,
            fails: 8,
            ..WHOLE
        },
        Told::Ended(LoadStop::Failed),
    ),
    (
        Way {
            stop: true,
            most: 14_000,
            threads: 1,
            ..WHOLE
        },
        Told::Ended(LoadStop::TooLarge),
    ),
    (
        Way {
            most: 14_000,
            head: 1_000_000,
            ..WHOLE
        },
        Told::Ended(LoadStop::TooLarge),
    ),
];

#[test]
fn groups_and_stages_read_the_same(rt: HostRuntime) {
    let text = repeated(rt.alloc(), MIXED, 250).expect(&rt, "memory");
    for (place, row) in ROWS.iter().enumerate() {
        assert!(rt; tells(&rt, rt.alloc(), &text, row), "row {place}");
    }
}
