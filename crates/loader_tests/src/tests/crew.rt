//! Ranges that are shared by workers.
use csv_source::{Gate, NoMemory, OpenGate};
use loader_runs::{Cut, File, ROOMY, Reply, Run, Watcher, repeated};
use std::alloc::Global;
use std::sync::Wait;
use std::sync::atomic::{AtomicBool, AtomicU64, Ordering};
use std::thread::Threads;

/// Holds the scan of range 0 until another worker has claimed range 1, or for many turns.
#[derive(Drop)]
struct Holding {
    /// One more than the number of the worker that has claimed range 1.
    claimer: AtomicU64,
    claim_came_first: AtomicBool,
}

impl Gate for Holding {
    fn claimed(&self, worker: u32, range: u64) {
        if range == 1 {
            self.claimer.store(u64::from(worker) + 1, Ordering::SeqCst);
        }
    }

    fn scanning(&self, worker: u32, range: u64, _state: u8) {
        if range != 0 {
            return;
        }
        for _ in 0..1_000_000_000u64 {
            let claimer = self.claimer.load(Ordering::SeqCst);
            if claimer != 0 && claimer != u64::from(worker) + 1 {
                self.claim_came_first.store(true, Ordering::SeqCst);
                return;
            }
        }
    }
}

impl Watcher for Holding {
    fn reading(&self, _given: u64) {}
}

const TWO_ROWS: &[u8] = b"options|delim=,|quote=\"|escape=\"|newline=\\n|skip=0|header=false\n\
column|0|BIGINT|column0\n\
column|1|BIGINT|column1\n\
row|1|2\n\
row|3|4\n\
rows|2\n\
errors|0|0\n";

const LOAD: &[&str] = &[
    "load",
    "f.csv",
    "delim=,",
    "quote=\"",
    "escape=\"",
    "header=false",
];

const BY_TWO: Run<'static, 'static> = Run {
    words: LOAD,
    files: &[("f.csv", b"1,2\n3,4\n")],
    outside: ROOMY,
    cut: Some(Cut {
        range_size: 4,
        threads: 2,
    }),
};

/// Whether two workers load two ranges, and the gate saw the claim of the second come first.
fn claim_comes_first<R: Threads + Wait + Sync>(rt: &R, alloc: Global) -> bool {
    let holding = Holding {
        claimer: AtomicU64::new(0),
        claim_came_first: AtomicBool::new(false),
    };
    BY_TWO.comes_to(rt, alloc, &holding, 0, TWO_ROWS)
        && holding.claim_came_first.load(Ordering::SeqCst)
}

#[test]
fn another_worker_claims_while_the_first_range_is_scanned(rt: HostRuntime) {
    assert!(rt; claim_comes_first(&rt, rt.alloc()));
}

/// Quotes within plain fields, and delimiters and line ends within quotes: many guesses are wrong, wherever ranges begin.
const MISLEADING: &[u8] = b"a,5\"bb\n\"c\n,d\",ee\n";

/// How often they stand in the input of 140,012 bytes: several groups of ranges, which workers share.
const TIMES: usize = 8_236;

/// Whether on eight threads, in ranges whose size the turn gives, the load of an input writes this text.
fn is_loaded<R: Threads + Wait + Sync>(
    rt: &R,
    alloc: Global,
    input: &[u8],
    turn: usize,
    text: &[u8],
) -> bool {
    let run = Run {
        words: LOAD,
        files: &[("f.csv", input)],
        outside: ROOMY,
        cut: Some(Cut {
            range_size: 4_096 + 5 * (turn % 7),
            threads: 8,
        }),
    };
    run.comes_to(rt, alloc, &OpenGate, 0, text)
}

/// The load of an input in one range.
fn at_once<R: Threads + Wait + Sync>(
    rt: &R,
    alloc: Global,
    input: &[u8],
) -> Result<Reply, NoMemory> {
    let run = Run {
        words: LOAD,
        files: &[("f.csv", input)],
        outside: ROOMY,
        cut: None,
    };
    run.reply(rt, alloc, &OpenGate)
}

/// Whether all turns over an input write the text that it has in one range, with so many rows.
fn all_are_loaded<R: Threads + Wait + Sync>(rt: &R, alloc: Global, input: &[u8]) -> bool {
    let Ok(reply) = at_once(rt, alloc, input) else {
        return false;
    };
    for turn in 0..200usize {
        if !is_loaded(rt, alloc, input, turn, reply.text()) {
            return false;
        }
    }
    reply
        .text()
        .ends_with(b"row|a|5\"bb\nrow|c\\n,d|ee\nrows|16472\nerrors|0|0\n")
}

/// Whether they do so over the misleading rows.
fn misleading_rows_are_loaded<R: Threads + Wait + Sync>(rt: &R, alloc: Global) -> bool {
    match repeated(alloc, MISLEADING, TIMES) {
        Ok(input) => all_are_loaded(rt, alloc, &input),
        Err(NoMemory) => false,
    }
}

#[test]
fn two_hundred_runs_over_wrong_guesses_have_one_text(rt: HostRuntime) {
    assert!(rt; misleading_rows_are_loaded(&rt, rt.alloc()));
}
