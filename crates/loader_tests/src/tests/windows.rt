//! Inputs of which only a part is held at a time. The first part holds the sample, and so has more than 4 MiB.
use csv_source::{Gate, NoMemory};
use loader_runs::{Outside, Run, WHOLE, Watcher, extend};
use std::alloc::Global;
use std::sync::Wait;
use std::sync::atomic::{AtomicU64, Ordering};
use std::thread::Threads;

/// Counts the scans, and those that came before the last read.
#[derive(Drop)]
struct Counting {
    scans: AtomicU64,
    before_last_read: AtomicU64,
}

impl Gate for Counting {
    fn claimed(&self, _worker: u32, _range: u64) {}

    fn scanning(&self, _worker: u32, _range: u64, _state: u8) {
        self.scans.fetch_add(1, Ordering::SeqCst);
    }
}

impl Watcher for Counting {
    fn reading(&self, _given: u64) {
        let scans = self.scans.load(Ordering::SeqCst);
        self.before_last_read.store(scans, Ordering::SeqCst);
    }
}

impl Counting {
    fn new() -> Counting {
        Counting {
            scans: AtomicU64::new(0),
            before_last_read: AtomicU64::new(0),
        }
    }

    fn scans(&self) -> u64 {
        self.scans.load(Ordering::SeqCst)
    }

    fn before_last_read(&self) -> u64 {
        self.before_last_read.load(Ordering::SeqCst)
    }
}

/// Rows of which the first is faulty, 5,000,000 bytes.
fn faulty_rows(alloc: Global) -> Result<Vec<u8>, NoMemory> {
    let mut input = Vec::new(alloc);
    extend(&mut input, b"x\n", 1)?;
    extend(&mut input, b"1\n", 2_499_999)?;
    Ok(input)
}

const FAULTY_ROW: &[u8] = b"options|delim=,|quote=\"|escape=\"|newline=\\n|skip=0|header=false\n\
column|0|BIGINT|column0\n\
error|0|0|1|1|1|1|column0|CAST|x|Error when converting column \"column0\". Could not convert string \"x\" to 'BIGINT'\n";

/// Whether the load of the faulty rows, read in pieces of 10,000 bytes, ends with the first of them.
fn ends_with_first<'w, R: Threads + Wait + Sync>(
    rt: &R,
    alloc: Global,
    counting: &Counting,
    words: &'w [&'w str],
) -> bool {
    let Ok(input) = faulty_rows(alloc) else {
        return false;
    };
    let run = Run {
        words,
        files: &[("f.csv", &input)],
        outside: Outside {
            source_piece: 10_000,
            ..WHOLE
        },
        cut: None,
    };
    run.comes_to(rt, alloc, counting, 3, FAULTY_ROW)
}

const LOAD: &[&str] = &[
    "load",
    "f.csv",
    "delim=,",
    "quote=\"",
    "escape=\"",
    "header=false",
    "types=BIGINT",
    "sample_size=1",
    "range_size=16384",
    "max_line_size=1000",
];

/// Whether only the first group is scanned, and begins so before the last read. A group has 16 ranges, so 256 KiB: the next
/// group is read beside the scan of the first, and the groups behind that one only when the scan has ended.
fn one_group_is_scanned<R: Threads + Wait + Sync>(rt: &R, alloc: Global) -> bool {
    let counting = Counting::new();
    ends_with_first(rt, alloc, &counting, LOAD)
        && counting.scans() <= 16
        && counting.before_last_read() > 0
}

#[test]
fn scans_begin_before_the_last_read(rt: HostRuntime) {
    assert!(rt; one_group_is_scanned(&rt, rt.alloc()));
}

const LOAD_PIPED: &[&str] = &[
    "load",
    "f.csv",
    "delim=,",
    "quote=\"",
    "escape=\"",
    "header=false",
    "types=BIGINT",
    "sample_size=1",
    "range_size=65536",
    "max_line_size=1000",
    "pipeline=true",
];

/// Whether all 77 ranges of the data are scanned, 64 of them in the first group.
fn all_ranges_are_scanned<R: Threads + Wait + Sync>(rt: &R, alloc: Global) -> bool {
    let counting = Counting::new();
    ends_with_first(rt, alloc, &counting, LOAD_PIPED) && counting.scans() >= 77
}

#[test]
fn all_ranges_are_scanned_while_more_is_read(rt: HostRuntime) {
    assert!(rt; all_ranges_are_scanned(&rt, rt.alloc()));
}
