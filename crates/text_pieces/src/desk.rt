// What one worker makes of a round.
ghost use Rattle.std.specs.Prelude.{◌≡◌, ℕ, List, slice_range, IfOk, IfSome, IsNone};
ghost use Rattle.std.specs.List.{concat};
ghost use Rattle.text_pieces.specs.Blocks.{HasNone, HasWork, IsDrawn, IsIdle, IsRound};

use crate::block::Block;
use crate::round::Round;
use crate::row_lines::RowLines;
use crate::spare::Spare;
use csv_source::NoMemory;
use std::alloc::Global;

/// A worker's blocks, used again from round to round, and how many of them the last round used.
#[derive(Drop)]
pub(crate) struct Desk {
    alloc: Global,
    blocks: Vec<Block>,
    used: usize,
    // The caller's desk alone has room in it.
    pub(crate) spare: Spare,
}

impl Desk {
    /// A desk of so many blocks.
    pub(crate) fn new(alloc: Global, count: usize, spare: Spare) -> Result<Desk, NoMemory>
        ensures { IfOk result IsIdle }
    {
        let mut blocks = Vec::new(alloc);
        for _ in 0..count {
            blocks.push(Block::new(alloc))?;
        }
        Ok(Desk {
            alloc,
            blocks,
            used: 0,
            spare,
        })
    }

    /// Draws rows of a round and makes their lines, until none are left or all blocks are used.
    pub(crate) fn work<T: RowLines>(&mut self, rows: &T, round: &Round)
        requires { IsRound (T.lines rows.now) round.now }
        ensures lines { HasWork (T.lines rows.now) self.new }
        ensures drawn { IsDrawn round.now self.new }
    {
        self.used = 0;
        while self.used < self.blocks.len() {
            let Some((from, to)) = round.draw() else {
                return;
            };
            self.blocks[self.used].make(self.alloc, rows, from, to);
            self.used += 1;
        }
    }

    /// The lines of the rows from `from` to before `to`, where they were made here.
    pub(crate) fn lines(&self, from: usize, to: usize) -> Option<&[u8]>
        requires { (lines : List (List ℕ)) × HasWork lines self.now }
        ensures some { (lines : List (List ℕ)) → HasWork lines self.now → IfSome result (λ text. text.now ≡ concat (slice_range lines from to)) }
        ensures none { IsNone result → HasNone from to self.now }
    {
        for block in &self.blocks[..self.used] {
            if let Some(text) = block.lines(from, to) {
                return Some(text);
            }
        }
        None
    }

    /// The bytes of the longest block, and no end where the lines of one couldn't be made.
    pub(crate) fn longest(&self) -> usize {
        let mut most = 0;
        for block in self.blocks.iter().take(self.used) {
            if !block.made {
                return usize::MAX;
            }
            most = block.text.len().max(most);
        }
        most
    }
}
