//! The reading of an input beside the scans of what was read of it.
use csv_source::{Gate, NoMemory};
use loader_runs::{File, Outside, Run, WHOLE, Watcher, repeated};
use std::alloc::Global;
use std::sync::Wait;
use std::sync::atomic::{AtomicU64, Ordering};
use std::thread::Threads;

/// How often one looks for the other before it gives up.
const TURNS: u64 = 1_000_000_000;

/// How many bytes are read before a scan has to have begun.
const AHEAD: u64 = 8_388_608;

/// Holds the scans until the reading is far ahead, and there the reading until a scan has begun.
#[derive(Drop)]
struct Meeting {
    scanning: AtomicU64,
    ahead: AtomicU64,
    /// How often one gave up.
    given_up: AtomicU64,
}

impl Meeting {
    fn new() -> Meeting {
        Meeting {
            scanning: AtomicU64::new(0),
            ahead: AtomicU64::new(0),
            given_up: AtomicU64::new(0),
        }
    }

    /// Raises one flag, and goes on when the other is raised, or where one gave up before.
    fn meet(&self, mine: &AtomicU64, other: &AtomicU64) {
        mine.store(1, Ordering::SeqCst);
        if self.given_up.load(Ordering::SeqCst) > 0 {
            return;
        }
        for _ in 0..TURNS {
            if other.load(Ordering::SeqCst) == 1 {
                return;
            }
        }
        self.given_up.fetch_add(1, Ordering::SeqCst);
    }
}

impl Gate for Meeting {
    fn claimed(&self, _worker: u32, _range: u64) {}

    fn scanning(&self, _worker: u32, _range: u64, _state: u8) {
        self.meet(&self.scanning, &self.ahead);
    }
}

impl Watcher for Meeting {
    fn reading(&self, given: u64) {
        if given >= AHEAD {
            self.meet(&self.ahead, &self.scanning);
        }
    }
}

const PIPED: &[&str] = &[
    "summary",
    "f.csv",
    "delim=,",
    "header=false",
    "pipeline=true",
    "threads=2",
    "range_size=16384",
    "max_line_size=1000",
];

/// The summary of a million rows of twelve bytes.
const SUMMED: &[u8] = b"options|delim=,|quote=\"|escape=\"|newline=\\n|skip=0|header=false\n\
column|0|BIGINT|column0\n\
column|1|VARCHAR|column1\n\
rows|1000000\n\
errors|0|0\n\
tap|count|1000000|2000000\n\
tap|span|0|1234567|1234567\n\
tap|width|1|3\n\
tap|distinct|1\n";

/// Whether over an input the scans wait for the reading, the reading for a scan, and neither in vain.
fn meet<R: Threads + Wait + Sync>(rt: &R, alloc: Global, input: &[u8]) -> bool {
    let meeting = Meeting::new();
    let run = Run {
        words: PIPED,
        files: &[("f.csv", input)],
        outside: Outside {
            source_piece: 65_536,
            ..WHOLE
        },
        cut: None,
    };
    run.comes_to(rt, alloc, &meeting, 0, SUMMED) && meeting.given_up.load(Ordering::SeqCst) == 0
}

/// Whether they do so over a million rows.
fn many_rows_meet<R: Threads + Wait + Sync>(rt: &R, alloc: Global) -> bool {
    match repeated(alloc, b"1234567,abc\n", 1_000_000) {
        Ok(input) => meet(rt, alloc, &input),
        Err(NoMemory) => false,
    }
}

#[test]
fn scans_and_the_reading_go_on_beside_each_other(rt: HostRuntime) {
    assert!(rt; many_rows_meet(&rt, rt.alloc()));
}
