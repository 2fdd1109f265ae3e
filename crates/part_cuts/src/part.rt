//! A part of a file.
ghost use Rattle.std.specs.Prelude.{◌≡◌, ◌+◌, ◌<◌, ◌^◌, length, slice_get, slice_index_or, Some};
ghost use Rattle.part_cuts.specs.Part.{parts};
ghost use Rattle.part_cuts.specs.Within.{Ascends};

use crate::tally::Tally;

/// A part, which is loaded by itself behind the file's head.
#[derive(Clone, Copy, Debug, PartialEq, Eq)]
pub struct Part {
    /// The place of its first byte, from 0.
    pub byte: u64,
    /// How many bytes it has.
    pub len: u64,
    /// The number of the physical line in which it begins, from 1.
    pub line: u64,
    /// How many rows it has that count.
    pub rows: u64,
}

/// What lies before the next part, or before the end.
fn place_behind(starts: &[Tally], end: Tally, number: usize) -> Tally
    requires { number < length starts.now }
    ensures { result ≡ slice_index_or starts.now (number + 1) end }
{
    match starts.get(number + 1) {
        Some(next) => *next,
        None => end,
    }
}

/// A part, counted from 0, by what lies before each and before the end.
pub(crate) fn part_at(starts: &[Tally], end: Tally, number: usize) -> Part
    requires within { number < length starts.now }
    requires ordered { Ascends starts.now end }
    requires fits { end.lines < 2 ^ 63 }
    ensures { slice_get (parts starts.now end) number ≡ Some result }
{
    let start = starts[number];
    let next = place_behind(starts, end, number);
    Part {
        byte: start.bytes,
        len: next.bytes - start.bytes,
        line: start.lines + 1,
        rows: next.rows - start.rows,
    }
}
