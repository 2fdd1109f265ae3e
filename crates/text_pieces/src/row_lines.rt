// Rows that have lines.
ghost use Rattle.std.specs.Prelude.{◌≡◌, ◌<◌, ◌≤◌, ◌++◌, ℕ, List, [], length, slice_index_or, slice_range, OnOk};
ghost use Rattle.std.specs.List.{concat};
ghost use Rattle.text_pieces.specs.Writes.{Writes};

use crate::draft::Draft;
use csv_source::{Failed, NoMemory, Sink};

/// Rows, each with a line of text.
pub trait RowLines {
    /// The lines of the rows, in order.
    ghost lines: { Self → List (List ℕ) };

    /// How many rows there are.
    fn count(&self) -> usize
        ensures { result ≡ length (lines self.now) };

    /// About how many bytes the lines of so many rows take.
    fn room(&self, rows: usize) -> usize;

    /// Appends the lines of the rows from `from` to before `to`. After want of memory nothing is known of the text.
    fn append(&self, from: usize, to: usize, into: &mut Draft) -> Result<(), NoMemory>
        requires ordered { from ≤ to }
        requires within { to ≤ length (lines self.now) }
        ensures ok { OnOk result (into.new.text ≡ into.old.text ++ concat (slice_range (lines self.now) from to)) };

    /// Writes the line of a row piece by piece, and wants no memory for it.
    fn write_line<K: Sink>(&self, row: usize, sink: &mut K) -> Result<(), Failed>
        requires within { row < length (lines self.now) }
        ensures { Writes (K.taken sink.old) (K.taken sink.new) (K.faults sink.old) (K.faults sink.new) result (slice_index_or (lines self.now) row []) };
}
