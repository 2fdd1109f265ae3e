//! Stages that begin late, behind a queue that is full.
use super::crew_contexts::{context_of, repeated};
use super::dialects::commas;
use csv_source::{Failed, Gate, MemorySource, NoMemory, Source};
use pipe_load::pipe_load;
use std::alloc::Global;
use std::process::Abort;
use std::sync::Wait;
use std::sync::atomic::{AtomicU64, Ordering};
use std::thread::Threads;
use value_types::ColumnType;
use window_load::{DataLoader, InputWindow, LoadStop, WindowRead};

/// How often one looks for the other before it gives up.
const TURNS: u64 = 1_000_000_000;

/// How many rows of 8 bytes are read, and how many bytes before a scan goes on.
const ROWS: usize = 20_000;

const AHEAD: u64 = 130_000;

/// Windows have 176 bytes with these ranges, and the queue holds 64 of them.
const RANGE_SIZE: u64 = 16;

/// Whether a scan has begun, whether the reading is far ahead, and how often one gave up.
#[derive(Drop)]
struct Flags {
    scanning: AtomicU64,
    ahead: AtomicU64,
    given_up: AtomicU64,
}

impl Flags {
    /// Raises one flag, and goes on when the other is raised, or where one gave up before.
    fn meet(&self, mine: &AtomicU64, other: &AtomicU64) {
        mine.store(1, Ordering::SeqCst);
        if self.given_up.load(Ordering::SeqCst) > 0 {
            return;
        }
        for _ in 0..TURNS {
            if other.load(Ordering::SeqCst) == 1 {
                return;
            }
        }
        self.given_up.fetch_add(1, Ordering::SeqCst);
    }
}

/// Holds the scans until the reading is far ahead.
#[derive(Drop)]
struct Meeting<'a> {
    flags: &'a Flags,
}

impl Gate for Meeting<'_> {
    fn claimed(&self, _worker: u32, _range: u64) {}

    fn scanning(&self, _worker: u32, _range: u64, _state: u8) {
        self.flags.meet(&self.flags.scanning, &self.flags.ahead);
    }
}

/// Far ahead it reads on only when a scan has begun.
#[derive(Drop)]
struct Waiting<'a> {
    source: MemorySource,
    given: u64,
    flags: &'a Flags,
}

impl Source for Waiting<'_> {
    ghost held = { λ s. ⟦<MemorySource as Source>⟧.held s.source };

    ghost left = { λ s. ⟦<MemorySource as Source>⟧.left s.source };

    ghost faults = { λ s. ⟦<MemorySource as Source>⟧.faults s.source };

    fn open(&mut self, name: &str) -> Result<(), Failed> {
        self.source.open(name)
    }

    fn read(&mut self, buf: &mut [u8]) -> Result<usize, Failed> {
        if self.given >= AHEAD {
            self.flags.meet(&self.flags.ahead, &self.flags.scanning);
        }
        let count = self.source.read(buf)?;
        self.given = self.given.saturating_add(count as u64);
        Ok(count)
    }
}

/// A source that holds the rows, and gives them in pieces of 65,536 bytes.
fn pieces_of(alloc: Global) -> Result<MemorySource, NoMemory> {
    let mut source = MemorySource::new(alloc);
    source.put("f.csv", &repeated(alloc, b"12,text\n", ROWS)?)?;
    source.piece(65_536);
    Ok(source)
}

/// What two stages read.
fn load<R: Threads + Wait + Sync + Abort>(
    rt: &R,
    alloc: Global,
    flags: &Flags,
) -> Result<WindowRead, LoadStop> {
    let context = context_of(alloc, commas(rt), ColumnType::Bigint, 30, false)?;
    let mut source = Waiting {
        source: pieces_of(alloc)?,
        given: 0,
        flags,
    };
    assert!(rt; source.open("f.csv").is_ok());
    let loader = DataLoader {
        rt,
        alloc,
        context: &context,
        range_size: RANGE_SIZE,
        stop: false,
        threads: 2,
        gate: &Meeting { flags },
    };
    let head = InputWindow::new(alloc, 1_073_741_824);
    pipe_load(&loader, head, 0, &mut source)
}

/// Whether all rows are read.
fn has_all_rows(read: &Result<WindowRead, LoadStop>) -> bool {
    matches!(read, Ok(WindowRead::All(read)) if read.joined.table.rows() == ROWS)
}

// The queue is full while the stages wait for more to be read.
#[test]
fn windows_wait_for_stages_that_begin_late(rt: HostRuntime) {
    let flags = Flags {
        scanning: AtomicU64::new(0),
        ahead: AtomicU64::new(0),
        given_up: AtomicU64::new(0),
    };
    assert!(rt; has_all_rows(&load(&rt, rt.alloc(), &flags)));
    assert!(rt; flags.given_up.load(Ordering::SeqCst) == 0);
}
