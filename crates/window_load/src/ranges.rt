//! The ranges of the data, one after another in a window.
ghost use Rattle.std.specs.Prelude.{◌≡◌, ◌+◌, ◌<◌, ◌≤◌, ◌^◌, true, length, IfOk};
ghost use Rattle.std.specs.Io.KnownBytes.{IsAtEnd};
ghost use Rattle.reject_book.specs.declared.book.Keep.TheVariants.{First as first_of};
ghost use Rattle.load_options.specs.declared.limits.TheConstants.{MAX_LINE_SIZE, RANGE_SIZE};
ghost use Rattle.window_load.specs.Ranges.{span_in, range_reach};
ghost use Rattle.window_load.specs.Reading.{IsReadInWindows};
ghost use Rattle.window_load.specs.Reads.{Reads, stop_in};

use crate::adding::add_range;
use crate::course::Course;
use crate::data_read::{DataRead, WindowRead};
use crate::groups::is_wide;
use crate::reject::first_reject;
use crate::stop::LoadStop;
use crate::window::InputWindow;
use csv_source::{Gate, Source};
use quote_automaton::State;
use range_scan::{CALLER, Joined, RangeScanner, Span};

/// The range with this number, which begins at a place of a window of so many bytes.
fn span_in(at: usize, window_length: usize, range_size: u64, number: u64) -> Span
    requires within { at < window_length }
    requires room { window_length ≤ 2 ^ 33 }
    requires fits { range_size ≤ RANGE_SIZE.most }
    ensures { result ≡ span_in at window_length range_size number }
{
    Span {
        number,
        from: at,
        to: window_length.min(at + range_size as usize),
    }
}

/// How many bytes of the data a window holds from a range's beginning on, for lines of so many bytes.
fn range_reach(range_size: u64, line_size: u64) -> usize
    requires fits { range_size ≤ RANGE_SIZE.most }
    requires line { line_size ≤ MAX_LINE_SIZE.most }
    ensures { result ≡ range_reach range_size line_size }
{
    (range_size + (line_size + 1)) as usize
}

/// The longest line whose end is looked for behind a range at once.
const NEAR: u64 = 65_536;

/// Reads the ranges of the data, which begin with the window, one after another on the caller's thread. Of each range the
/// last byte is held for the next one. Behind it as much is held as most rows need, and as a row may have where that isn't
/// enough: so little that it stays in the processor's caches between its reading and its scan, where a group of ranges would
/// take fresh memory.
pub fn read_ranges<S: Source, G: Gate>(
    scanner: &RangeScanner<'_, G>,
    course: Course,
    window: &mut InputWindow,
    source: &mut S,
) -> Result<WindowRead, LoadStop>
    requires some { 0 < course.range_size }
    requires within { course.range_size ≤ RANGE_SIZE.most }
    requires line { scanner.now.context.now.schema.max_line_size ≤ MAX_LINE_SIZE.most }
    requires begins { window.old.base ≡ course.start }
    requires room { window.old.most ≤ 2 ^ 32 }
    requires keep { course.stop ≡ true → scanner.now.context.now.keep ≡ first_of 1 }
    requires at_end { window.old.ended ≡ true → IsAtEnd (S.left source.old) }
    ensures ok { IfOk result (λ read. IsReadInWindows scanner.now.context.now course (S.left source.old) (S.left source.new) window.old window.new read) }
    ensures reads { Reads (S.left source.old) (S.left source.new) (S.held source.old) (S.held source.new) (S.faults source.old) (S.faults source.new)
        window.old window.new (stop_in result) }
{
    let (alloc, context) = (scanner.alloc, scanner.context);
    let most = context.schema.max_line_size;
    // A row of so many columns may reach far.
    let wide = is_wide(context);
    let mut joined = Joined::new(alloc, context, State::RowStart)?;
    let mut at = 0;
    let mut number = 0;
    let mut far = false;
    loop {
        let long = far || wide;
        let line = if long { most } else { most.min(NEAR) };
        window.fill_to(source, at + range_reach(course.range_size, line))?;
        if at == window.len() {
            let length = window.reach() - course.start;
            let read = DataRead::of(joined, length, course.range_size);
            return Ok(WindowRead::All(read));
        }
        if !far {
            scanner.gate.claimed(CALLER, number);
        }
        let span = span_in(at, window.len(), course.range_size, number);
        let sure = long || window.ended();
        if !add_range(scanner, &mut joined, window, &span, sure)? {
            far = true;
            continue;
        }
        if course.stop && joined.book.len() > 0 {
            let reject = first_reject(alloc, &joined.book, 0)?;
            return Ok(WindowRead::Stopped(reject));
        }
        window.drop_front(span.to - 1);
        at = 1;
        number += 1;
        far = false;
    }
}
