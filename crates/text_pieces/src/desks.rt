// What all workers make of a round.
ghost use Rattle.std.specs.Prelude.{◌≡◌, ◌<◌, ◌+◌, ℕ, List, min, slice_range, IfOk, IfSome, IsNone};
ghost use Rattle.std.specs.List.{concat};
ghost use Rattle.text_pieces.specs.Blocks.{AreDesks, AreIdle, HaveNone, IsRound};
ghost use Rattle.text_pieces.specs.Writes.{Writes};

use crate::desk::Desk;
use crate::round::Round;
use crate::row_lines::RowLines;
use crate::spare::Spare;
use crate::writing::write_text;
use csv_source::{Failed, NoMemory, Sink};
use std::alloc::Global;

/// A round of rows, and what workers made of it: the caller's own desk, and those of other threads.
#[derive(Drop)]
pub(crate) struct Desks {
    pub(crate) round: Round,
    pub(crate) own: Desk,
    pub(crate) others: Vec<Desk>,
}

impl Desks {
    /// So many desks, at least the caller's, each with so many blocks.
    pub(crate) fn new(alloc: Global, count: usize, blocks: usize) -> Result<Desks, NoMemory>
        ensures { IfOk result AreIdle }
    {
        let mut others = Vec::new(alloc);
        for _ in 1..count {
            others.push(Desk::new(alloc, blocks, Spare::none(alloc))?)?;
        }
        Ok(Desks {
            round: Round::new(0, 0, 1),
            own: Desk::new(alloc, blocks, Spare::with_room(alloc)?)?,
            others,
        })
    }

    /// How many workers have a desk.
    pub(crate) fn workers(&self) -> usize {
        self.others.len().saturating_add(1)
    }

    /// The lines of the rows from `from` to before `to`, where a worker made them.
    fn lines(&self, from: usize, to: usize) -> Option<&[u8]>
        requires { (lines : List (List ℕ)) × AreDesks lines self.now }
        ensures some { (lines : List (List ℕ)) → AreDesks lines self.now → IfSome result (λ text. text.now ≡ concat (slice_range lines from to)) }
        ensures none { IsNone result → HaveNone from to self.now }
    {
        if let Some(text) = self.own.lines(from, to) {
            return Some(text);
        }
        for desk in &self.others {
            if let Some(text) = desk.lines(from, to) {
                return Some(text);
            }
        }
        None
    }

    /// Writes the lines of the block that begins with the row `from`: those that were made, or else through the spare buffer.
    fn write_block<T: RowLines, K: Sink>(
        &self,
        rows: &T,
        from: usize,
        spare: &mut Spare,
        sink: &mut K,
    ) -> Result<(), Failed>
        requires desks { AreDesks (T.lines rows.now) self.now }
        requires round { IsRound (T.lines rows.now) self.now.round }
        requires within { from < self.now.round.to }
        ensures { Writes (K.taken sink.old) (K.taken sink.new) (K.faults sink.old) (K.faults sink.new) result (concat (slice_range (T.lines rows.now) from (min (from + self.now.round.at_once) self.now.round.to))) }
    {
        let to = self.round.end(from);
        match self.lines(from, to) {
            Some(text) => write_text(sink, text),
            None => spare.write(rows, from, to, sink),
        }
    }

    /// Writes the lines of the round's rows.
    pub(crate) fn write<T: RowLines, K: Sink>(
        &self,
        rows: &T,
        spare: &mut Spare,
        sink: &mut K,
    ) -> Result<(), Failed>
        requires desks { AreDesks (T.lines rows.now) self.now }
        requires round { IsRound (T.lines rows.now) self.now.round }
        ensures { Writes (K.taken sink.old) (K.taken sink.new) (K.faults sink.old) (K.faults sink.new) result (concat (slice_range (T.lines rows.now) self.now.round.from self.now.round.to)) }
    {
        let mut at = self.round.from;
        while at < self.round.to {
            self.write_block(rows, at, spare, sink)?;
            at = self.round.end(at);
        }
        Ok(())
    }

    /// The bytes of the longest block, and no end where the lines of one couldn't be made.
    pub(crate) fn longest(&self) -> usize {
        let mut most = self.own.longest();
        for desk in &self.others {
            most = desk.longest().max(most);
        }
        most
    }
}
