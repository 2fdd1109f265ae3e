//! The pipelined load.
ghost use Rattle.std.specs.Prelude.{◌≡◌, ◌≤◌, ◌<◌, ◌^◌, ℕ, List, true, IfOk, Err, length, drop};
ghost use Rattle.std.specs.Io.KnownBytes.{IsAtEnd};
ghost use Rattle.csv_source.specs.Causes.{Rose};
ghost use Rattle.reject_book.specs.declared.book.Keep.TheVariants.{First as first_of};
ghost use Rattle.load_options.specs.declared.limits.TheConstants.{MAX_LINE_SIZE, RANGE_SIZE, THREADS};
ghost use Rattle.range_scan.specs.Scanned.{HasColumns};
ghost use Rattle.window_load.specs.DataRead.{IsWindowRead, Comes, ComesWhole, ComesOver};
ghost use Rattle.window_load.specs.Reads.{Reads, stop_in};
ghost use Rattle.window_load.specs.Window.{WindowView};
ghost use Rattle.window_load.specs.declared.stop.LoadStop.TheVariants as stops;
ghost use Rattle.pipe_load.specs.Layout.{IsLayout};
ghost use Rattle.pipe_load.specs.Loading.{HasReach, IsAllRead};

use crate::answer::up_to_reject;
use crate::layout::{Layout, layout_of};
use crate::reader::Reader;
use crate::round::round_of;
use csv_source::{Gate, Source};
use quote_automaton::State;
use range_scan::Joined;
use std::sync::Wait;
use std::thread::Threads;
use window_load::{DataLoader, DataRead, InputWindow, LoadStop, WindowRead};

/// Loads the data that begin with a window, round after round: so no more windows stand in memory than a round has, and
/// those of the next one come into the same memory.
fn load_rounds<R: Threads + Wait + Sync, S: Source + Send, G: Gate>(
    loader: &DataLoader<'_, R, G>,
    window: InputWindow,
    layout: Layout,
    source: &mut S,
) -> Result<DataRead, LoadStop>
    requires layout { IsLayout layout }
    requires first { layout.before ≡ 0 }
    requires reach { HasReach loader.now.context.now layout }
    requires at_end { window.ended ≡ true → IsAtEnd (S.left source.old) }
    requires room { window.most ≤ 2 ^ 32 }
    requires fits { HasColumns loader.now.context.now.schema }
    requires threads { (1 ≤ loader.now.threads) × (loader.now.threads ≤ THREADS.most) }
    // Whatever the answer, the window reached further on the source.
    ensures reads { (last : WindowView) × Reads (S.left source.old) (S.left source.new) (S.held source.old) (S.held source.new) (S.faults source.old) (S.faults source.new)
        window last (stop_in result) }
    ensures ok { IfOk result (λ read. (came : List ℕ) × IsAllRead loader.now.context.now layout.data_start layout.range_size window (S.left source.old) (S.left source.new) came read) }
{
    let start = window.base();
    let mut reader = Reader::new(loader.alloc, window, layout);
    reader.fill(source)?;
    let mut joined = Joined::new(loader.alloc, loader.context, State::RowStart)?;
    loop {
        round_of(loader, &reader).load_round(&mut reader, &mut joined, source)?;
        if reader.is_done() {
            let length = reader.window.reach() - start;
            return Ok(DataRead::of(joined, length, layout.range_size));
        }
        reader.turn();
    }
}

/// Loads the data of an input, of which the head was read. They begin at a place of the head, and go on with what is left
/// of the source. It is read to its end while `threads` stages scan what came. With `stop` the answer is the first reject,
/// if there is one.
pub fn pipe_load<R: Threads + Wait + Sync, S: Source + Send, G: Gate>(
    loader: &DataLoader<'_, R, G>,
    head: InputWindow,
    data_start: usize,
    source: &mut S,
) -> Result<WindowRead, LoadStop>
    requires begins { head.base ≡ 0 }
    requires place { data_start ≤ length head.kept }
    requires room { head.most ≤ 2 ^ 32 }
    requires at_end { head.ended ≡ true → IsAtEnd (S.left source.old) }
    requires some { 0 < loader.now.range_size }
    requires within { loader.now.range_size ≤ RANGE_SIZE.most }
    requires line { loader.now.context.now.schema.max_line_size ≤ MAX_LINE_SIZE.most }
    requires fits { HasColumns loader.now.context.now.schema }
    requires threads { (1 ≤ loader.now.threads) × (loader.now.threads ≤ THREADS.most) }
    requires keep { loader.now.stop ≡ true → loader.now.context.now.keep ≡ first_of 1 }

    // All of the data were read, and nothing is left.
    ensures ok { IfOk result (λ read. ComesWhole (S.left source.old) (S.left source.new) head
        (λ input. IsWindowRead loader.now.context.now (drop data_start input) data_start loader.now.range_size loader.now.stop read)) }
    // The input is over its limit, and one byte over it was read.
    ensures too_large { result ≡ Err stops.TooLarge → ComesOver (S.left source.old) (S.left source.new) head }
    ensures failed { result ≡ Err stops.Failed → Rose (S.faults source.old) (S.faults source.new) }
    // Whatever the answer, a front of what was left came.
    ensures moved { Comes (S.left source.old) (S.left source.new) }
    ensures held { S.held source.new ≡ S.held source.old }
    ensures count { S.faults source.old ≤ S.faults source.new }
{
    let room = head.room();
    if room == 0 {
        return Err(LoadStop::TooLarge);
    }
    let mut window = head;
    window.drop_front(data_start);
    let most_line = loader.context.schema.max_line_size;
    let layout = layout_of(data_start as u64, loader.range_size, most_line);
    let read = load_rounds(loader, window, layout, source)?;
    Ok(up_to_reject(loader.alloc, read, loader.stop)?)
}
