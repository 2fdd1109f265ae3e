//! The load of an input's data in windows.
ghost use Rattle.std.specs.Prelude.{◌≡◌, ◌<◌, ◌≤◌, ◌^◌, true, length, drop, IfOk, Err};
ghost use Rattle.std.specs.Io.KnownBytes.{IsAtEnd};
ghost use Rattle.csv_source.specs.Causes.{Rose};
ghost use Rattle.reject_book.specs.declared.book.Keep.TheVariants.{First as first_of};
ghost use Rattle.load_options.specs.declared.limits.TheConstants.{MAX_LINE_SIZE, RANGE_SIZE, THREADS};
ghost use Rattle.range_scan.specs.Scanned.{HasColumns};
ghost use Rattle.window_load.specs.DataRead.{IsWindowRead, Comes, ComesWhole, ComesOver};
ghost use Rattle.window_load.specs.declared.stop.LoadStop.TheVariants as stops;

use crate::course::Course;
use crate::crew::GroupReader;
use crate::data_loader::DataLoader;
use crate::data_read::WindowRead;
use crate::groups::read_groups;
use crate::stop::LoadStop;
use crate::window::InputWindow;
use csv_source::{Gate, Source};
use std::thread::Threads;

/// Loads the data of an input, of which the head was read. They begin at a place of the head, and go on with what is left
/// of the source. A group of ranges, with what its last rows reach over, is read by at most `threads` workers while the next
/// one comes, and one range at a time where there is one worker. With `stop` the load ends with the first reject; the rest
/// is then read and dropped. The head comes by value: no byte of the sample is copied, a terminal or a pipe that ended isn't
/// asked again, and with the answer the input is let go, before a report of it is rendered.
pub fn window_load<R: Threads + Sync, S: Source + Send, G: Gate>(
    loader: &DataLoader<'_, R, G>,
    head: InputWindow,
    data_start: usize,
    source: &mut S,
) -> Result<WindowRead, LoadStop>
    requires begins { head.base ≡ 0 }
    requires place { data_start ≤ length head.kept }
    requires room { head.most ≤ 2 ^ 32 }
    requires at_end { head.ended ≡ true → IsAtEnd (S.left source.old) }
    requires some { 0 < loader.now.range_size }
    requires within { loader.now.range_size ≤ RANGE_SIZE.most }
    requires line { loader.now.context.now.schema.max_line_size ≤ MAX_LINE_SIZE.most }
    requires fits { HasColumns loader.now.context.now.schema }
    requires threads { (1 ≤ loader.now.threads) × (loader.now.threads ≤ THREADS.most) }
    requires keep { loader.now.stop ≡ true → loader.now.context.now.keep ≡ first_of 1 }

    // All of the data were read, and nothing is left.
    ensures ok { IfOk result (λ read. ComesWhole (S.left source.old) (S.left source.new) head
        (λ input. IsWindowRead loader.now.context.now (drop data_start input) data_start loader.now.range_size loader.now.stop read)) }
    // The input is over its limit, and one byte over it was read.
    ensures too_large { result ≡ Err stops.TooLarge → ComesOver (S.left source.old) (S.left source.new) head }
    ensures failed { result ≡ Err stops.Failed → Rose (S.faults source.old) (S.faults source.new) }
    // Whatever the answer, a front of what was left came.
    ensures moved { Comes (S.left source.old) (S.left source.new) }
    ensures held { S.held source.new ≡ S.held source.old }
    ensures count { S.faults source.old ≤ S.faults source.new }
{
    let mut window = head;
    window.drop_front(data_start);
    let course = Course {
        start: data_start as u64,
        range_size: loader.range_size,
        stop: loader.stop,
    };
    let reader = GroupReader {
        rt: loader.rt,
        alloc: loader.alloc,
        context: loader.context,
        threads: loader.threads,
        gate: loader.gate,
    };
    let read = read_groups(&reader, course, &mut window, source)?;
    window.read_past(source)?;
    Ok(read)
}
