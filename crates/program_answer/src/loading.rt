// The program's taps, and the run with them.
ghost use Rattle.std.specs.Prelude.{◌≡◌, ◌++◌, ◌∷◌, [], map, IfOk, OnErr, OnOk};
ghost use Rattle.column_taps.specs.Seen.{nothing_seen};
ghost use Rattle.loader_reply.specs.Reply.{texts};
ghost use Rattle.loader_reply.specs.Replying.{ReadsNoFile};
ghost use Rattle.program_answer.specs.ProgramTaps.{program_taps};
ghost use Rattle.csv_loader.specs.Headline.{IsRun};

use column_taps::{CountTap, DistinctTap, RowTap, SpanTap, TapKind, WidthTap};
use csv_loader::{Ending, run_to_ending};
use csv_source::{Gate, NoMemory, Sink, Source};
use std::alloc::Global;
use std::sync::Wait;
use std::thread::Threads;

/// How many different texts the program's last tap may keep.
const MOST_TEXTS: u64 = 1000;

/// Puts a tap of a kind behind others.
fn hand_in(
    taps: &mut Vec<Box<dyn RowTap>>,
    kind: TapKind,
    tap: Box<dyn RowTap>,
) -> Result<(), NoMemory>
    requires new { seen tap ≡ nothing_seen kind }
    ensures ok { OnOk result (map seen taps.new.items ≡ map seen taps.old.items ++ nothing_seen kind ∷ []) }
{
    taps.push(tap)?;
    Ok(())
}

/// Takes the words to the loader with the program's taps.
fn run_with<R: Threads + Wait + Sync, S: Source + Send, K: Sink, G: Gate>(
    rt: &R,
    alloc: Global,
    words: &[String],
    source: &mut S,
    sink: &mut K,
    gate: &G,
    taps: Vec<Box<dyn RowTap>>,
) -> Ending
    requires { map seen taps.items ≡ program_taps }
    ensures run { IsRun program_taps (texts words.now)
        (record { held = S.held source.old; left = S.left source.old; faults = S.faults source.old })
        (record { held = S.held source.new; left = S.left source.new; faults = S.faults source.new })
        (record { taken = K.taken sink.old; faults = K.faults sink.old })
        (record { taken = K.taken sink.new; faults = K.faults sink.new }) result }
    ensures untouched { ReadsNoFile (texts words.now) → source.new ≡ source.old }
{
    run_to_ending(rt, alloc, words, source, sink, gate, taps)
}

/// Takes the words to the loader with the program's taps, and answers how the run ended.
pub fn load<R: Threads + Wait + Sync, S: Source + Send, K: Sink, G: Gate>(
    rt: &R,
    alloc: Global,
    words: &[String],
    source: &mut S,
    sink: &mut K,
    gate: &G,
) -> Result<Ending, NoMemory>
    // All that the loader's call promises, with these taps in their order.
    ensures run { IfOk result (λ ending. IsRun program_taps (texts words.now)
        (record { held = S.held source.old; left = S.left source.old; faults = S.faults source.old })
        (record { held = S.held source.new; left = S.left source.new; faults = S.faults source.new })
        (record { taken = K.taken sink.old; faults = K.faults sink.old })
        (record { taken = K.taken sink.new; faults = K.faults sink.new }) ending) }
    ensures untouched { ReadsNoFile (texts words.now) → source.new ≡ source.old }

    // Where the taps find no memory, nothing was read or written.
    ensures err { OnErr result ((source.new ≡ source.old) × (sink.new ≡ sink.old)) }
{
    // In the order in which they print.
    let mut taps: Vec<Box<dyn RowTap>> = Vec::new(alloc);
    hand_in(&mut taps, TapKind::Count, Box::new(alloc, CountTap::new())?)?;
    hand_in(
        &mut taps,
        TapKind::Span,
        Box::new(alloc, SpanTap::new(alloc))?,
    )?;
    hand_in(
        &mut taps,
        TapKind::Width,
        Box::new(alloc, WidthTap::new(alloc))?,
    )?;
    hand_in(
        &mut taps,
        TapKind::Distinct(MOST_TEXTS),
        Box::new(alloc, DistinctTap::new(alloc, MOST_TEXTS))?,
    )?;
    Ok(run_with(rt, alloc, words, source, sink, gate, taps))
}
