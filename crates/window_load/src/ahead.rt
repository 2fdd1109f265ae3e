//! The reading of a group beside the scan of the one before it.
ghost use Rattle.std.specs.Prelude.{◌≡◌, ◌+◌, ◌-◌, ◌<◌, ◌≤◌, true, length, IfOk, Err};
ghost use Rattle.std.specs.Io.KnownBytes.{IsAtEnd};
ghost use Rattle.csv_source.specs.Causes.{Rose};
ghost use Rattle.load_crew.specs.GroupRead.{IsGroupRead};
ghost use Rattle.load_crew.specs.Task.{task, IsTask};
ghost use Rattle.window_load.specs.Window.{reach, behind_front, fill_limit, GoesOn, IsFilled};
ghost use Rattle.window_load.specs.declared.stop.LoadStop.TheVariants as stops;

use crate::crew::{GroupReader, GroupTurn};
use crate::stop::LoadStop;
use crate::window::InputWindow;
use csv_source::{Gate, NoMemory, Source};
use load_crew::GroupRead;
use std::mem;
use std::thread::{Threads, join_mut};

impl<'a, R: Threads + Sync, G: Gate> GroupReader<'a, R, G> {
    /// Reads a group of a window by a crew, and meanwhile fills another window on a thread beside it.
    fn read_beside<S: Source + Send>(
        &self,
        turn: &GroupTurn,
        window: &InputWindow,
        next: &mut InputWindow,
        source: &mut S,
        count: usize,
    ) -> (Result<GroupRead, NoMemory>, Result<(), LoadStop>)
        requires group { IsTask (task self.now.context.now window.now.kept window.now.base turn.now.group turn.now.first) }
        requires at_end { next.old.ended ≡ true → IsAtEnd (S.left source.old) }
        ensures ok { IfOk result.0 (IsGroupRead self.now.context.now window.now.kept window.now.base turn.now.group turn.now.first turn.now.stop) }
        ensures filled { IfOk result.1 (λ _. IsFilled count next.new) }
        ensures too_large { result.1 ≡ Err stops.TooLarge → reach next.new ≡ next.new.most + 1 }
        ensures moved { GoesOn (S.left source.old) (S.left source.new) 0 next.old next.new }
        ensures within { length next.new.kept ≤ fill_limit count (length next.old.kept) }
        ensures at_end { next.new.ended ≡ true → IsAtEnd (S.left source.new) }
        ensures held { S.held source.new ≡ S.held source.old }
        ensures count { S.faults source.old ≤ S.faults source.new }
        ensures failed { result.1 ≡ Err stops.Failed → Rose (S.faults source.old) (S.faults source.new) }
    {
        let (filled, read) = join_mut(
            self.rt,
            &mut || { next.fill_to(source, count) },
            &mut ||
                requires { IsTask (task self.now.context.now window.now.kept window.now.base turn.now.group turn.now.first) }
            { self.read_group(window, turn) },
        );
        (read, filled)
    }

    /// Reads a group of a window, and meanwhile what comes behind it into a second window, which begins with the group's last
    /// byte and is filled up to `count` bytes. Then the two change places, so that the memory of both is used again.
    pub fn read_ahead<S: Source + Send>(
        &self,
        turn: &GroupTurn,
        window: &mut InputWindow,
        second: &mut InputWindow,
        source: &mut S,
        count: usize,
    ) -> Result<GroupRead, LoadStop>
        requires group { IsTask (task self.now.context.now window.old.kept window.old.base turn.now.group turn.now.first) }
        requires some { turn.now.group.from < turn.now.group.to }
        requires within { reach window.old ≤ window.old.most }
        requires at_end { window.old.ended ≡ true → IsAtEnd (S.left source.old) }
        ensures ok { IfOk result (IsGroupRead self.now.context.now window.old.kept window.old.base turn.now.group turn.now.first turn.now.stop) }
        ensures filled { IfOk result (λ _. IsFilled count window.new) }
        ensures too_large { result ≡ Err stops.TooLarge → reach window.new ≡ window.new.most + 1 }
        ensures moved { GoesOn (S.left source.old) (S.left source.new) (turn.now.group.to - 1) window.old window.new }
        ensures within { length window.new.kept ≤ fill_limit count (length (behind_front (turn.now.group.to - 1) window.old).kept) }
        ensures at_end { window.new.ended ≡ true → IsAtEnd (S.left source.new) }
        ensures held { S.held source.new ≡ S.held source.old }
        ensures count { S.faults source.old ≤ S.faults source.new }
        ensures failed { result ≡ Err stops.Failed → Rose (S.faults source.old) (S.faults source.new) }
    {
        let done = turn.group.to - 1;
        if window.ended() {
            let read = self.read_group(window, turn);
            window.drop_front(done);
            return Ok(read?);
        }
        if let Err(NoMemory) = second.copy_rest(window, done) {
            window.drop_front(done);
            return Err(LoadStop::NoMemory);
        }
        let (read, filled) = self.read_beside(turn, window, second, source, count);
        mem::swap(window, second);
        filled?;
        Ok(read?)
    }
}
