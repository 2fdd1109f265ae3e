// Rows that are made and written round by round.
ghost use Rattle.std.specs.Prelude.{◌≡◌, ◌<◌, ◌≤◌, drop, length, IfOk};
ghost use Rattle.std.specs.List.{concat};
ghost use Rattle.text_pieces.specs.Blocks.{IsReady};
ghost use Rattle.text_pieces.specs.Writes.{Writes};

use crate::desks::Desks;
use crate::fit::{BLOCK_ROWS, fit};
use crate::round::Round;
use crate::row_lines::RowLines;
use crate::workers::Workers;
use csv_source::{Failed, NoMemory, Sink};
use std::mem;
use std::thread::Threads;

/// About so many bytes of lines a block has: with less, the draws and the writes would show, and with more, the last worker of a
/// round would be waited for longer.
const BLOCK_BYTES: usize = 1 << 20;

/// The blocks of the first round are so many times smaller, so that the writing begins soon.
const FIRST: usize = 4;

/// So many blocks a round has for each worker, so that one that is slow makes fewer of them, and the others more, and that the
/// end of a round, where workers wait for the last one, comes seldom.
const SHARE: usize = 8;

/// So many blocks a desk has: half of the workers can make a whole round, and what they hold grows with their number alone.
const BLOCKS: usize = 2 * SHARE;

/// The round that is written, the next one, which is made meanwhile, and how many of its rows are made at once. How many bytes a
/// row takes shows in the lines that were made: rounds begin with few rows and grow up to blocks of some size.
#[derive(Drop)]
pub(crate) struct Rounds {
    at_once: usize,
    ready: Desks,
    making: Desks,
}

/// How many of some rows are made at once in the first round, where so many workers share them.
fn at_once<T: RowLines>(rows: &T, workers: usize) -> usize
    ensures { 0 < result }
{
    let most = (BLOCK_BYTES / rows.room(1).max(1)).min(BLOCK_ROWS);
    let few = (most / FIRST).max(1);
    rows.count().div_ceil(workers.max(1)).clamp(1, few)
}

impl Rounds {
    /// Rounds for these rows. As many workers as are of use have a desk.
    pub(crate) fn new<R, T: RowLines>(
        workers: &Workers<'_, R>,
        rows: &T,
    ) -> Result<Rounds, NoMemory>
        ensures { IfOk result IsReady }
    {
        let threads = workers.threads as usize;
        let at_once = at_once(rows, threads);
        let count = rows.count().div_ceil(at_once).min(threads).max(1);
        Ok(Rounds {
            at_once,
            ready: Desks::new(workers.alloc, count, BLOCKS)?,
            making: Desks::new(workers.alloc, count, BLOCKS)?,
        })
    }

    /// The round behind the one that is ready.
    fn next_round(&self, count: usize) -> Round
        requires ready { 0 < self.now.at_once }
        requires within { self.now.ready.round.to ≤ count }
        ensures from { result.from ≡ self.now.ready.round.to }
        ensures ordered { result.from ≤ result.to }
        ensures within { result.to ≤ count }
        ensures some { result.from < count → result.from < result.to }
        ensures at_once { result.at_once ≡ self.now.at_once }
    {
        let from = self.ready.round.to;
        let blocks = self.making.workers().saturating_mul(SHARE);
        let rows = self.at_once.saturating_mul(blocks).max(1);
        Round::new(from, from.saturating_add(rows).min(count), self.at_once)
    }

    /// How many rows are made at once in the round behind the next one, by what the lines of the ready one take. Where some
    /// couldn't be made, not fewer than the spare buffer takes: rounds of few rows would be many.
    fn next_at_once(&self) -> usize
        requires { 0 < self.now.at_once }
        ensures { 0 < result }
    {
        let longest = self.ready.longest();
        let fitting = fit(self.at_once, longest, BLOCK_BYTES);
        if longest < usize::MAX {
            return fitting;
        }
        fitting.max(self.ready.own.spare.rows().min(self.at_once))
    }

    /// Writes the lines of all rows from `from` on. Each pass makes the next round beside the writing of the ready one, of which
    /// the first is one of no rows.
    pub(crate) fn write_from<R: Threads + Sync, T: RowLines + Sync, K: Sink>(
        &mut self,
        rt: &R,
        rows: &T,
        from: usize,
        sink: &mut K,
    ) -> Result<(), Failed>
        requires ready { IsReady self.old }
        requires within { from ≤ length (T.lines rows.now) }
        ensures { Writes (K.taken sink.old) (K.taken sink.new) (K.faults sink.old) (K.faults sink.new) result (concat (drop from (T.lines rows.now))) }
    {
        let count = rows.count();
        self.ready.round = Round::new(from, from, 1);
        while self.ready.round.to < count {
            self.making.round = self.next_round(count);
            self.making.make_beside(rt, rows, &self.ready, sink)?;
            mem::swap(&mut self.ready, &mut self.making);
            self.at_once = self.next_at_once();
        }
        self.ready.write(rows, &mut self.making.own.spare, sink)
    }
}
