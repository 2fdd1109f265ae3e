//! Groups in ranges of a few bytes: one read by crews of several sizes up to its first bad range, and one by a worker alone.

use super::crew_contexts::context_of;
use super::dialects::commas;
use csv_source::{Gate, OpenGate};
use load_crew::{Group, GroupPlan, GroupRead, Kept, run_group, work};
use quote_automaton::State;
use std::alloc::Global;
use std::process::Abort;
use std::sync::atomic::{AtomicU64, Ordering};
use std::thread::Threads;
use value_types::ColumnType;

/// Eight ranges of 4 bytes. The second and the third are one row, inside whose quotes the third opens, and the fifth is bad.
const TEXT: &[u8] = b"1,a\n2,\"\nb,\"\n3,c\nx,4\n5,e\ny,6\n7,g\n";

/// What at most so many workers read of `TEXT`.
fn read_by<R: Threads + Sync + Abort>(rt: &R, alloc: Global, threads: u32) -> GroupRead {
    assert!(rt; 1 <= threads && threads <= 64);
    let context = context_of(alloc, commas(rt), ColumnType::Bigint, 100, true).expect(rt, "memory");
    let group = Group {
        first_range: 0,
        from: 0,
        to: 32,
        range_size: 4,
    };
    let plan = GroupPlan {
        context: &context,
        bytes: TEXT,
        group: &group,
        first: State::RowStart,
        stop: true,
    };
    let (chain, mut link) = plan.new_chain(alloc).expect(rt, "memory");
    let (board, mut drawer) = plan.new_board(alloc).expect(rt, "memory");
    let read = run_group(
        rt,
        alloc,
        &context,
        TEXT,
        0,
        &group,
        State::RowStart,
        true,
        threads,
        &board,
        &chain,
        &mut drawer,
        &mut link,
        &OpenGate,
    );
    read.expect(rt, "memory")
}

/// Whether the reading ended behind the fifth range: three rows, one reject, and the third range scanned again.
fn has_stopped(read: &GroupRead) -> bool {
    let joined = &read.joined;
    read.stopped
        && joined.end == State::RowStart
        && joined.table.rows() == 3
        && joined.book.all() == 1
        && joined.book.len() == 1
        && joined.book.get(0).line == 5
        && joined.line_ends == 5
        && joined.rescans == 1
        && joined.rescanned == 4
}

#[test]
fn the_reading_ends_behind_the_first_bad_range(rt: HostRuntime) {
    for threads in [1u32, 2, 4, 8] {
        assert!(rt;
            has_stopped(&read_by(&rt, rt.alloc(), threads)),
            "by {threads}"
        );
    }
}

/// Counts what a worker tells.
#[derive(Drop)]
struct Counting {
    claims: AtomicU64,
    scans: AtomicU64,
}

impl Gate for Counting {
    fn claimed(&self, _worker: u32, _range: u64) {
        self.claims.fetch_add(1, Ordering::SeqCst);
    }

    fn scanning(&self, _worker: u32, _range: u64, _state: u8) {
        self.scans.fetch_add(1, Ordering::SeqCst);
    }
}

/// The ranges that a worker keeps of `x,5"y` and `1,2` in ranges of 2 bytes, and the states from which it read them.
const KEPT: [(u64, State); 7] = [
    (0, State::RowStart),
    (1, State::Quoted),
    (1, State::FieldStart),
    (2, State::QuoteSeen),
    (2, State::Plain),
    (3, State::RowStart),
    (4, State::FieldStart),
];

fn are_in_order(kept: &Kept) -> bool {
    if kept.is_empty() || kept.len() != KEPT.len() {
        return false;
    }
    for place in 0..KEPT.len() {
        let part = kept.get(place);
        if part.number() != KEPT[place].0 || part.opened() != KEPT[place].1 {
            return false;
        }
    }
    true
}

/// What one worker keeps.
fn kept_by(rt: &impl Abort, alloc: Global, gate: &Counting) -> Kept {
    let context = context_of(alloc, commas(rt), ColumnType::Varchar, 100, false).expect(
        rt, "memory",
    );
    let bytes = b"x,5\"y\n1,2\n";
    let group = Group {
        first_range: 0,
        from: 0,
        to: 10,
        range_size: 2,
    };
    let first = State::RowStart;
    let plan = GroupPlan {
        context: &context,
        bytes,
        group: &group,
        first,
        stop: false,
    };
    let (board, mut drawer) = plan.new_board(alloc).expect(rt, "memory");
    let (chain, mut link) = plan.new_chain(alloc).expect(rt, "memory");
    let kept = work(
        alloc,
        &context,
        bytes,
        0,
        &group,
        first,
        0,
        &board,
        &chain,
        &mut drawer,
        &mut link,
        gate,
    );
    kept.expect(rt, "memory")
}

#[test]
fn a_worker_keeps_each_range_in_its_guess_and_in_its_true_state(rt: HostRuntime) {
    let gate = Counting {
        claims: AtomicU64::new(0),
        scans: AtomicU64::new(0),
    };
    assert!(rt; are_in_order(&kept_by(&rt, rt.alloc(), &gate)));
    assert!(rt; gate.claims.load(Ordering::SeqCst) == 5);
    assert!(rt; gate.scans.load(Ordering::SeqCst) == 7);
}
