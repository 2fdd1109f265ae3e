// Rows that workers draw.
ghost use Rattle.std.specs.Prelude.{◌≡◌, ◌<◌, ◌+◌, min, IfSome};
ghost use Rattle.text_pieces.specs.Blocks.{IsCut};

use std::sync::atomic::{AtomicU64, Ordering};

/// The rows from `from` to before `to`, of which workers draw `at_once` at a time.
#[derive(Drop)]
pub(crate) struct Round {
    pub(crate) from: usize,
    pub(crate) to: usize,
    pub(crate) at_once: usize,
    // How often rows were drawn. No clause depends on it: what is drawn is cut at run time to the round's rows.
    drawn: AtomicU64,
}

impl Round {
    /// A round of which nothing is drawn.
    pub(crate) fn new(from: usize, to: usize, at_once: usize) -> Round
        ensures from { result.from ≡ from }
        ensures to { result.to ≡ to }
        ensures at_once { result.at_once ≡ at_once }
    {
        Round {
            from,
            to,
            at_once,
            drawn: AtomicU64::new(0),
        }
    }

    /// The end of the rows from `from` on that are made at once.
    pub(crate) fn end(&self, from: usize) -> usize
        ensures { result ≡ min (from + self.now.at_once) self.now.to }
    {
        from.saturating_add(self.at_once).min(self.to)
    }

    /// Draws rows, as the first of them and their end: none once all are drawn.
    pub(crate) fn draw(&self) -> Option<(usize, usize)>
        ensures { IfSome result (λ rows. IsCut self.now rows.0 rows.1) }
    {
        let number = self.drawn.fetch_add(1, Ordering::SeqCst) as usize;
        let from = self
            .from
            .saturating_add(number.saturating_mul(self.at_once));
        if from >= self.to {
            return None;
        }
        Some((from, self.end(from)))
    }
}
