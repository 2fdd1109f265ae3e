// The next round, made beside the writing of a ready one.
ghost use Rattle.std.specs.Prelude.{◌≡◌, ◌<◌, length, slice_range, All, OnOk};
ghost use Rattle.std.specs.List.{concat};
ghost use Rattle.text_pieces.specs.Blocks.{AreDesks, AreDrawn, HasWork, IsDrawn, IsRound};
ghost use Rattle.text_pieces.specs.Writes.{Writes};

use crate::desk::Desk;
use crate::desks::Desks;
use crate::round::Round;
use crate::row_lines::RowLines;
use csv_source::{Failed, Sink};
use std::thread;
use std::thread::Threads;

/// Makes the lines of a round's rows, each desk's by a worker of its own.
fn work_all<R: Threads + Sync, T: RowLines + Sync>(
    rt: &R,
    rows: &T,
    round: &Round,
    desks: &mut [Desk],
)
    requires some { 0 < length desks.old }
    requires round { IsRound (T.lines rows.now) round.now }
    ensures lines { All (HasWork (T.lines rows.now)) desks.new }
    ensures drawn { All (IsDrawn round.now) desks.new }
{
    let workers = desks.len();
    thread::for_each_mut(
        rt,
        desks,
        workers,
        &|_, desk: &mut Desk|
            requires { IsRound (T.lines rows.now) round.now }
            ensures lines { HasWork (T.lines rows.entry.now) desk.new }
            ensures drawn { IsDrawn round.entry.now desk.new }
        { desk.work(rows, round) },
    );
}

/// Writes the lines of a ready round, and makes some of the next one's then. Where no block has them, they go through the desk's
/// spare buffer.
fn write_then_work<T: RowLines, K: Sink>(
    ready: &Desks,
    rows: &T,
    sink: &mut K,
    own: &mut Desk,
    next: &Round,
) -> Result<(), Failed>
    requires ready { AreDesks (T.lines rows.now) ready.now }
    requires round { IsRound (T.lines rows.now) ready.now.round }
    requires next { IsRound (T.lines rows.now) next.now }
    ensures own { OnOk result (HasWork (T.lines rows.now) own.new) }
    ensures drawn { OnOk result (IsDrawn next.now own.new) }
    ensures text { Writes (K.taken sink.old) (K.taken sink.new) (K.faults sink.old) (K.faults sink.new) result (concat (slice_range (T.lines rows.now) ready.now.round.from ready.now.round.to)) }
{
    ready.write(rows, &mut own.spare, sink)?;
    own.work(rows, next);
    Ok(())
}

impl Desks {
    /// Makes the lines of this round on other threads while those of a ready one are written. The sink stays on the caller's
    /// thread, which makes what is left after the writing. Where one worker has a desk, no thread is started.
    pub(crate) fn make_beside<R: Threads + Sync, T: RowLines + Sync, K: Sink>(
        &mut self,
        rt: &R,
        rows: &T,
        ready: &Desks,
        sink: &mut K,
    ) -> Result<(), Failed>
        requires round { IsRound (T.lines rows.now) self.old.round }
        requires ready { AreDesks (T.lines rows.now) ready.now }
        requires ready_round { IsRound (T.lines rows.now) ready.now.round }
        ensures desks { OnOk result (AreDesks (T.lines rows.now) self.new) }
        ensures drawn { OnOk result (AreDrawn self.new) }
        ensures round { self.new.round ≡ self.old.round }
        ensures text { Writes (K.taken sink.old) (K.taken sink.new) (K.faults sink.old) (K.faults sink.new) result (concat (slice_range (T.lines rows.now) ready.now.round.from ready.now.round.to)) }
    {
        let round = &self.round;
        let own = &mut self.own;
        if self.others.is_empty() {
            return write_then_work(ready, rows, sink, own, round);
        }
        let others = self.others.as_mut_slice();
        let ((), written) = thread::join_mut(
            rt,
            &mut ||
                requires { (0 < length others.now) × IsRound (T.lines rows.now) round.now }
                ensures lines { All (HasWork (T.lines rows.entry.now)) others.exit.now }
                ensures drawn { All (IsDrawn round.entry.now) others.exit.now }
            { work_all(rt, rows, round, others) },
            &mut || { write_then_work(ready, rows, sink, own, round) },
        );
        written
    }
}
