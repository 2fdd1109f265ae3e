//! A round of a pipelined load.
ghost use Rattle.std.specs.Prelude.{◌≡◌, ◌≤◌, ◌<◌, ℕ, List, true, OnOk};
ghost use Rattle.std.specs.Io.KnownBytes.{IsAtEnd};
ghost use Rattle.load_options.specs.declared.limits.TheConstants.{THREADS};
ghost use Rattle.range_scan.specs.Scanned.{HasColumns};
ghost use Rattle.window_load.specs.Reads.{stop_in};
ghost use Rattle.pipe_load.specs.Layout.{IsLayout, round_len};
ghost use Rattle.pipe_load.specs.Loading.{HasReach, AddsRound};
ghost use Rattle.pipe_load.specs.Reading.{EndsRound, ReadsOn};

use crate::feeding::Feed;
use crate::pipeline::Pipeline;
use crate::reader::Reader;
use crate::scanner::Scanner;
use crate::stages::stages_of;
use crate::windows::Windows;
use csv_source::{Gate, Source};
use range_scan::{Joined, RangeScanner};
use std::collections::VecDeque;
use std::sync::Wait;
use std::thread::Threads;
use window_load::{DataLoader, LoadStop};

/// What the round works with that the reader is at.
pub fn round_of<'r, R: Threads + Wait + Sync, G: Gate>(
    loader: &DataLoader<'r, R, G>,
    reader: &Reader,
) -> Pipeline<'r, 'r, R, G>
    requires layout { IsLayout reader.now.layout }
    requires reach { HasReach loader.now.context.now reader.now.layout }
    requires fits { HasColumns loader.now.context.now.schema }
    requires threads { (1 ≤ loader.now.threads) × (loader.now.threads ≤ THREADS.most) }
    ensures layout { result.scanner.layout ≡ reader.now.layout }
    ensures context { result.scanner.ranges.context.now ≡ loader.now.context.now }
{
    let ranges = RangeScanner {
        alloc: loader.alloc,
        context: loader.context,
        gate: loader.gate,
    };
    Pipeline {
        rt: loader.rt,
        scanner: Scanner {
            ranges,
            layout: reader.layout,
        },
        threads: loader.threads,
    }
}

impl<'r, 'a, R: Threads + Wait + Sync, G: Gate> Pipeline<'r, 'a, R, G> {
    /// Loads the round that the reader is at, and joins it to what was joined before. Behind it the reader has what the next
    /// round begins with, or all that came.
    pub fn load_round<S: Source + Send>(
        &self,
        reader: &mut Reader,
        joined: &mut Joined,
        source: &mut S,
    ) -> Result<(), LoadStop>
        requires layout { reader.old.layout ≡ self.now.scanner.layout }
        requires start { reader.old.number ≡ 0 }
        requires at_end { reader.old.window.ended ≡ true → IsAtEnd (S.left source.old) }
        requires types { joined.old.table.types ≡ self.now.scanner.ranges.context.now.schema.types }
        requires keep { joined.old.book.keep ≡ self.now.scanner.ranges.context.now.keep }
        ensures reads { ReadsOn (S.left source.old) (S.left source.new) (S.held source.old) (S.held source.new) (S.faults source.old) (S.faults source.new)
            reader.old reader.new (stop_in result) }
        ensures ok { OnOk result ((more : List ℕ) × AddsRound self.now.scanner.ranges.context.now self.now.scanner.layout (S.left source.old) (S.left source.new)
            reader.new.number reader.old.window reader.new.window more joined.old joined.new) }
        ensures few { OnOk result (reader.new.number ≤ round_len reader.old.layout) }
        ensures whole { OnOk result (EndsRound reader.old.layout reader.new.number reader.new.window) }
    {
        let alloc = self.scanner.ranges.alloc;
        let (windows, mut pass) = Windows::new(alloc)?;
        let mut stages = stages_of(alloc, &windows, &mut pass, self.threads)?;
        let mut feed = Feed {
            pass,
            waiting: VecDeque::new(alloc),
        };
        match self.read_beside(&windows, reader, source, &mut feed, stages.as_mut_slice()) {
            Ok(()) => {}
            Err(stop) => return Err(stop),
        }
        Ok(self.join_windows(&windows, feed, stages, joined, reader)?)
    }
}
