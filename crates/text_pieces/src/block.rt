// A block of rows, whose lines are made at once.
ghost use Rattle.std.specs.Prelude.{◌≡◌, ◌≤◌, ℕ, List, length, slice_range, IfSome, IsNone};
ghost use Rattle.std.specs.List.{concat};
ghost use Rattle.text_pieces.specs.Blocks.{HasLines, IsMadeOf};

use crate::draft::Draft;
use crate::row_lines::RowLines;
use std::alloc::Global;
use std::mem;

/// The rows from `from` to before `to`, and their lines where they are made.
#[derive(Drop)]
pub(crate) struct Block {
    pub(crate) from: usize,
    pub(crate) to: usize,
    pub(crate) text: Draft,
    pub(crate) made: bool,
}

impl Block {
    /// A block of no rows.
    pub(crate) fn new(alloc: Global) -> Block {
        Block {
            from: 0,
            to: 0,
            text: Draft::new(alloc),
            made: false,
        }
    }

    /// Makes the lines of the rows from `from` to before `to`, in the memory of those before.
    pub(crate) fn make<T: RowLines>(&mut self, alloc: Global, rows: &T, from: usize, to: usize)
        requires ordered { from ≤ to }
        requires within { to ≤ length (T.lines rows.now) }
        ensures from { self.new.from ≡ from }
        ensures to { self.new.to ≡ to }
        ensures lines { HasLines (T.lines rows.now) self.new }
    {
        // The text grows on the worker's own stack: the blocks lie side by side, so that lengths which workers write there byte
        // by byte would pass a line of the cache to and fro between them.
        let mut text = mem::replace(&mut self.text, Draft::new(alloc));
        text.truncate(0);
        self.made = rows.append(from, to, &mut text).is_ok();
        self.from = from;
        self.to = to;
        self.text = text;
    }

    /// The lines of the rows from `from` to before `to`, where they were made here.
    pub(crate) fn lines(&self, from: usize, to: usize) -> Option<&[u8]>
        ensures some { (lines : List (List ℕ)) → HasLines lines self.now → IfSome result (λ text. text.now ≡ concat (slice_range lines from to)) }
        ensures none { IsNone result → ¬ IsMadeOf from to self.now }
    {
        if self.made && self.from == from && self.to == to {
            return Some(self.text.as_slice());
        }
        None
    }
}
