//! Summaries with taps of the tests' own choice.
ghost use Rattle.std.specs.Prelude.{◌≡◌};
ghost use Rattle.column_taps.specs.declared.kind.TapKind.TheVariants.{Distinct};
ghost use Rattle.column_taps.specs.Seen.{nothing_seen};

use column_taps::{CountTap, DistinctTap, RowTap, TapKind, Tapped};
use csv_loader::run;
use csv_source::{MemorySink, MemorySource, NoMemory, OpenGate};
use loader_runs::{ROOMY, Run, hand_in, words_of};
use std::alloc::Global;
use std::sync::Wait;
use std::thread::Threads;
use value_types::Cells;

/// Takes no rows at once, so that each is shown to it by itself.
#[derive(Drop)]
struct RowByRow {
    tap: DistinctTap,
}

impl RowByRow {
    /// Has seen nothing.
    fn new(alloc: Global, most: u64) -> RowByRow
        ensures { ⟦<RowByRow as RowTap>⟧.seen result ≡ nothing_seen (Distinct most) }
    {
        RowByRow {
            tap: DistinctTap::new(alloc, most),
        }
    }
}

impl RowTap for RowByRow {
    ghost seen = { λ t. (⟦<DistinctTap as RowTap>⟧).seen t.tap };

    fn kind(&self) -> TapKind {
        self.tap.kind()
    }

    fn take(&mut self, row: &Cells) -> Result<Tapped, NoMemory> {
        self.tap.take(row)
    }

    fn write_lines(&self, into: &mut Vec<u8>) -> Result<(), NoMemory> {
        self.tap.write_lines(into)
    }
}

/// A summary of one column of texts.
const TEXTS: Run<'static, 'static> = Run {
    words: &["summary", "f.csv", "types=VARCHAR", "header=false"],
    files: &[("f.csv", b"a\nb\na\nc\nd\n")],
    outside: ROOMY,
    cut: None,
};

/// The status of the summary with a tap that counts, one of at most so many different texts, and that once more row by row.
fn sum_up<R: Threads + Wait + Sync>(
    rt: &R,
    alloc: Global,
    source: &mut MemorySource,
    sink: &mut MemorySink,
    most: u64,
) -> Result<u8, NoMemory> {
    let words = words_of(alloc, TEXTS.words)?;
    let mut taps: Vec<Box<dyn RowTap>> = Vec::new(alloc);
    hand_in(&mut taps, Box::new(alloc, CountTap::new())?)?;
    hand_in(&mut taps, Box::new(alloc, DistinctTap::new(alloc, most))?)?;
    hand_in(&mut taps, Box::new(alloc, RowByRow::new(alloc, most))?)?;
    Ok(run(rt, alloc, &words, source, sink, &OpenGate, taps))
}

/// Whether the summary ends so.
fn ends<R: Threads + Wait + Sync>(
    rt: &R,
    alloc: Global,
    most: u64,
    rest: &[u8],
) -> Result<bool, NoMemory> {
    let mut source = TEXTS.source(alloc)?;
    let mut sink = TEXTS.sink(alloc)?;
    let status = sum_up(rt, alloc, &mut source, &mut sink, most)?;
    Ok(status == 0 && sink.taken().ends_with(rest))
}

const OVER: &[u8] = b"rows|5\nerrors|0|0\ntap|count|5|5\ntap|over|4\ntap|over|4\n";

const WITHIN: &[u8] = b"rows|5\nerrors|0|0\ntap|count|5|5\ntap|distinct|4\ntap|distinct|4\n";

#[test]
fn a_tap_over_its_bound_names_the_row_and_one_at_it_goes_on(rt: HostRuntime) {
    assert!(rt; matches!(ends(&rt, rt.alloc(), 2, OVER), Ok(true)));
    assert!(rt; matches!(ends(&rt, rt.alloc(), 4, WITHIN), Ok(true)));
}
