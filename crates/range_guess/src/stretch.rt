//! Ranges of a window that follow one another.
ghost use Rattle.std.specs.Prelude.{◌≡◌, ◌-◌, ◌<◌, ◌≤◌, ◌^◌};
ghost use Rattle.range_guess.specs.Stretch.{stretch_count, span_of};

use crate::cutting::{Ranges, cut};
use crate::span::Span;

/// Ranges of a window that follow one another.
#[derive(Clone, Copy, Debug, PartialEq, Eq)]
pub struct Stretch {
    /// The number of the first range.
    pub first_range: u64,
    /// The first place of the first range in the window.
    pub from: usize,
    /// The place after the last range.
    pub to: usize,
    /// The length of a range, of which the last may be shorter.
    pub range_size: u64,
}

impl Stretch {
    /// The ranges, by their places in it.
    fn ranges(&self) -> Ranges
        requires some { 0 < self.now.range_size }
        requires ordered { self.now.from ≤ self.now.to }
        ensures { result ≡ record { length = self.now.to - self.now.from; size = self.now.range_size } }
    {
        cut((self.to - self.from) as u64, self.range_size)
    }

    /// How many ranges there are.
    pub fn count(&self) -> u64
        requires some { 0 < self.now.range_size }
        requires ordered { self.now.from ≤ self.now.to }
        ensures { result ≡ stretch_count self.now }
    {
        self.ranges().count()
    }

    /// A range, counted from 0 in the stretch.
    pub fn span_of(&self, range: u64) -> Span
        requires some { 0 < self.now.range_size }
        requires ordered { self.now.from ≤ self.now.to }
        requires within { range < stretch_count self.now }
        requires room { self.now.to < 2 ^ 62 }
        requires numbers { self.now.first_range < 2 ^ 62 }
        ensures { result ≡ span_of self.now range }
    {
        let (from, to) = self.ranges().bounds(range);
        Span {
            number: self.first_range + range,
            from: self.from + from as usize,
            to: self.from + to as usize,
        }
    }
}
