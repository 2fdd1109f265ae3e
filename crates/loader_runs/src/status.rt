//! The status of one run, over a source and a sink of any kind.
ghost use Rattle.std.specs.Prelude.{All, OnOk};
ghost use Rattle.column_taps.specs.Seen.{IsFresh};

use column_taps::{CountTap, DistinctTap, RowTap, SpanTap, WidthTap};
use csv_loader::run;
use csv_source::{Gate, NoMemory, Sink, Source};
use std::alloc::Global;
use std::sync::Wait;
use std::thread::Threads;

pub fn words_of(alloc: Global, words: &[&str]) -> Result<Vec<String>, NoMemory> {
    let mut owned = Vec::new(alloc);
    for word in words {
        owned.push(String::from_str(alloc, word)?)?;
    }
    Ok(owned)
}

/// Puts a tap behind others. Each has seen nothing.
pub fn hand_in(taps: &mut Vec<Box<dyn RowTap>>, tap: Box<dyn RowTap>) -> Result<(), NoMemory>
    requires fresh { All (λ tap. IsFresh (seen tap)) taps.old.items }
    requires new { IsFresh (seen tap) }
    ensures ok { OnOk result (All (λ tap. IsFresh (seen tap)) taps.new.items) }
{
    taps.push(tap)?;
    Ok(())
}

/// Runs with a tap of each kind.
pub fn status_of<R: Threads + Wait + Sync, S: Source + Send, K: Sink, G: Gate>(
    rt: &R,
    alloc: Global,
    words: &[String],
    source: &mut S,
    sink: &mut K,
    gate: &G,
) -> Result<u8, NoMemory> {
    let mut taps: Vec<Box<dyn RowTap>> = Vec::new(alloc);
    hand_in(&mut taps, Box::new(alloc, CountTap::new())?)?;
    hand_in(&mut taps, Box::new(alloc, SpanTap::new(alloc))?)?;
    hand_in(&mut taps, Box::new(alloc, WidthTap::new(alloc))?)?;
    hand_in(&mut taps, Box::new(alloc, DistinctTap::new(alloc, 1000))?)?;
    Ok(run(rt, alloc, words, source, sink, gate, taps))
}
