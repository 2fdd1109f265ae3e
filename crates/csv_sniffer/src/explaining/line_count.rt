//! The physical lines in which rows of a sample begin.
ghost use Rattle.std.specs.Prelude.{◌≡◌, ◌≤◌, None, length};
ghost use Rattle.std.specs.List.{last_or};
ghost use Rattle.csv_sniffer.specs.Entries.{line_at};
ghost use Rattle.csv_sniffer.specs.LineCount.{IsCounted};

use byte_classes::{byte_before, count_line_ends};

/// A place of a sample, and the physical line that it is in, from 1. Lines are counted on from the place before.
#[derive(Clone, Copy)]
pub struct LineCount {
    at: usize,
    line: u64,
}

/// The last of some bytes.
fn last_of(bytes: &[u8]) -> Option<u8>
    ensures { result ≡ last_or None bytes.now }
{
    byte_before(bytes, bytes.len())
}

impl LineCount {
    /// The start of a sample, before which the file has these bytes.
    pub fn at_start(front: &[u8], sample: &[u8]) -> LineCount
        ensures counted { IsCounted front.now sample.now result }
        ensures first { result.at ≡ 0 }
    {
        LineCount {
            at: 0,
            line: 1 + count_line_ends(front, None),
        }
    }

    /// Where to count on from to a place: here, or the start where the place is before.
    fn before(self, front: &[u8], sample: &[u8], place: usize) -> LineCount
        requires { IsCounted front.now sample.now self }
        ensures counted { IsCounted front.now sample.now result }
        ensures ordered { result.at ≤ place }
    {
        if place < self.at {
            return LineCount::at_start(front, sample);
        }
        self
    }

    /// Counts on to a place that isn't before the last one.
    fn counted_to(self, front: &[u8], sample: &[u8], place: usize) -> LineCount
        requires counted { IsCounted front.now sample.now self }
        requires ordered { self.at ≤ place }
        requires within { place ≤ length sample.now }
        ensures { result ≡ record { at = place; line = line_at front.now sample.now place } }
    {
        let before = byte_before(sample, self.at).or(last_of(front));
        LineCount {
            at: place,
            line: self.line + count_line_ends(&sample[self.at..place], before),
        }
    }

    /// The line of a place.
    pub fn line_of(&mut self, front: &[u8], sample: &[u8], place: usize) -> u64
        requires counted { IsCounted front.now sample.now self.old }
        requires within { place ≤ length sample.now }
        ensures value { result ≡ line_at front.now sample.now place }
        ensures counted { IsCounted front.now sample.now self.new }
    {
        *self = self
            .before(front, sample, place)
            .counted_to(front, sample, place);
        self.line
    }
}
