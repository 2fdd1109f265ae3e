//! How often a load claims and scans each range, whatever the number of workers.
use csv_source::{Gate, NoMemory};
use loader_runs::{Cut, File, ROOMY, Run, Watcher, extend};
use std::alloc::Global;
use std::sync::Wait;
use std::sync::atomic::{AtomicU64, Ordering};
use std::thread::Threads;

/// Counts the claims and the scans.
#[derive(Drop)]
struct Counting {
    claims: AtomicU64,
    scans: AtomicU64,
    /// The claims of the first five ranges, each in a digit of four bits, the first range in the last digit.
    first_claims: AtomicU64,
    /// The states of their scans, each one more than its number, in three such digits a range.
    first_scans: AtomicU64,
}

impl Gate for Counting {
    fn claimed(&self, _worker: u32, range: u64) {
        self.claims.fetch_add(1, Ordering::SeqCst);
        if range < 5 {
            self.first_claims
                .fetch_add(1 << (4 * range), Ordering::SeqCst);
        }
    }

    fn scanning(&self, _worker: u32, range: u64, state: u8) {
        self.scans.fetch_add(1, Ordering::SeqCst);
        if range < 5 {
            let place = 12 * range;
            let before = (self.first_scans.load(Ordering::SeqCst) >> place) % 256;
            let more = 15 * before + u64::from(state % 15) + 1;
            self.first_scans.fetch_add(more << place, Ordering::SeqCst);
        }
    }
}

impl Watcher for Counting {
    fn reading(&self, _given: u64) {}
}

impl Counting {
    fn new() -> Counting {
        Counting {
            claims: AtomicU64::new(0),
            scans: AtomicU64::new(0),
            first_claims: AtomicU64::new(0),
            first_scans: AtomicU64::new(0),
        }
    }

    fn has_counted(&self, claims: u64, scans: u64) -> bool {
        self.claims.load(Ordering::SeqCst) == claims && self.scans.load(Ordering::SeqCst) == scans
    }

    fn has_noted(&self, claims: u64, scans: u64) -> bool {
        self.first_claims.load(Ordering::SeqCst) == claims
            && self.first_scans.load(Ordering::SeqCst) == scans
    }
}

const LOAD_PLAIN: &[&str] = &[
    "load",
    "f.csv",
    "delim=,",
    "quote=\"",
    "escape=\"",
    "header=false",
    "stats=true",
];

const PLAIN: &[File<'static>] = &[("f.csv", b"x,5\"y\n1,2\n")];

const TWO_ROWS: &[u8] = b"options|delim=,|quote=\"|escape=\"|newline=\\n|skip=0|header=false\n\
column|0|VARCHAR|column0\n\
column|1|VARCHAR|column1\n\
row|x|5\"y\n\
row|1|2\n\
rows|2\n\
errors|0|0\n\
stats|ranges=5|rescans=2|scanned=14\n";

/// Whether on so many threads five ranges are claimed once each. Each is scanned in its guess, range 1 once more in
/// FieldStart and range 2 in Plain.
fn five_are_claimed_once<R: Threads + Wait + Sync>(rt: &R, alloc: Global, threads: usize) -> bool {
    let counting = Counting::new();
    let run = Run {
        words: LOAD_PLAIN,
        files: PLAIN,
        outside: ROOMY,
        cut: Some(Cut {
            range_size: 2,
            threads,
        }),
    };
    run.comes_to(rt, alloc, &counting, 0, TWO_ROWS)
        && counting.has_counted(5, 7)
        && counting.has_noted(0x11111, 0x002_001_063_042_001)
}

#[test]
fn each_range_is_claimed_once_and_scanned_again_where_it_differs(rt: HostRuntime) {
    for threads in 1..5usize {
        assert!(rt; five_are_claimed_once(&rt, rt.alloc(), threads));
    }
}

/// Rows of 50,000 bytes, more than are read before a row is looked for, and behind them three rows of 200,001 bytes.
fn long_rows(alloc: Global) -> Result<Vec<u8>, NoMemory> {
    let mut input = Vec::new(alloc);
    for row in 0..89u32 {
        extend(&mut input, b"x", if row < 86 { 49_999 } else { 200_000 })?;
        extend(&mut input, b"\n", 1)?;
    }
    Ok(input)
}

const SUM_LONG_ROWS: &[&str] = &[
    "summary",
    "f.csv",
    "delim=,",
    "quote=\"",
    "escape=\"",
    "header=false",
    "types=VARCHAR",
    "max_line_size=200000",
    "stats=true",
];

const LONG_ROWS_SUMMED: &[u8] =
    b"options|delim=,|quote=\"|escape=\"|newline=\\n|skip=0|header=false\n\
column|0|VARCHAR|column0\n\
rows|89\n\
errors|0|0\n\
tap|count|89|89\n\
tap|width|0|200000\n\
tap|distinct|2\n\
stats|ranges=99|rescans=0|scanned=4900003\n";

/// Whether on so many threads the ranges of the long rows are claimed once each, with so many scans.
fn long_rows_are_scanned<R: Threads + Wait + Sync>(
    rt: &R,
    alloc: Global,
    input: &[u8],
    threads: usize,
    scans: u64,
) -> bool {
    let counting = Counting::new();
    let run = Run {
        words: SUM_LONG_ROWS,
        files: &[("f.csv", input)],
        outside: ROOMY,
        cut: Some(Cut {
            range_size: 50_000,
            threads,
        }),
    };
    run.comes_to(rt, alloc, &counting, 0, LONG_ROWS_SUMMED) && counting.has_counted(99, scans)
}

/// Whether they are, on one, two and four threads. One worker holds some 65,536 bytes behind a range at first. So the first
/// range of each long row is scanned once more, when so much is held as a row may have.
fn long_rows_are_counted<R: Threads + Wait + Sync>(rt: &R, alloc: Global) -> bool {
    let Ok(input) = long_rows(alloc) else {
        return false;
    };
    long_rows_are_scanned(rt, alloc, &input, 1, 102)
        && long_rows_are_scanned(rt, alloc, &input, 2, 99)
        && long_rows_are_scanned(rt, alloc, &input, 4, 99)
}

#[test]
fn a_range_whose_row_goes_on_behind_what_is_held_is_scanned_once_more(rt: HostRuntime) {
    assert!(rt; long_rows_are_counted(&rt, rt.alloc()));
}
