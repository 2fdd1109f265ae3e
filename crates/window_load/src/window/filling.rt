//! How a window is filled from a source.
ghost use Rattle.std.specs.Prelude.{◌≡◌, ◌⊎◌, ◌≤◌, ◌+◌, max, true, false, length, OnOk, Err};
ghost use Rattle.std.specs.Io.KnownBytes.{IsAtEnd};
ghost use Rattle.csv_source.specs.Causes.{Rose};
ghost use Rattle.csv_source.specs.Moves.{MovesFront};
ghost use Rattle.window_load.specs.Window.{reach, fill_limit, IsFilled, ReachesOn};
ghost use Rattle.window_load.specs.declared.window.filling.TheConstants.{STEP};
ghost use Rattle.window_load.specs.declared.stop.LoadStop.TheVariants as stops;

use crate::stop::LoadStop;
use crate::window::InputWindow;
use csv_source::{More, Source};

/// The least bytes of one reading, so that small groups don't cost a call of the source each.
const STEP: usize = 65_536;

impl InputWindow {
    /// Reads on by so many bytes, and by a step at least, up to the input's end or one byte over its limit.
    fn read_on<S: Source>(&mut self, source: &mut S, missing: usize) -> Result<(), LoadStop>
        requires going { self.old.ended ≡ false }
        ensures ok { OnOk result (IsFilled (length self.old.kept + missing) self.new ⊎ (reach self.new ≡ self.new.most + 1)) }
        ensures moved { MovesFront (S.left source.old) (S.left source.new) self.old.kept self.new.kept }
        ensures within { length self.new.kept ≤ length self.old.kept + max missing STEP }
        ensures same { (self.new.base ≡ self.old.base) × (self.new.most ≡ self.old.most) }
        ensures at_end { self.new.ended ≡ true → IsAtEnd (S.left source.new) }
        ensures held { S.held source.new ≡ S.held source.old }
        ensures count { S.faults source.old ≤ S.faults source.new }
        ensures not_over { ¬ (result ≡ Err stops.TooLarge) }
        ensures failed { result ≡ Err stops.Failed → Rose (S.faults source.old) (S.faults source.new) }
    {
        let step = self.room().min(missing.max(STEP) as u64);
        match self.bytes.read_more(source, step)? {
            More::Ended => self.ended = true,
            More::Reached => {}
        }
        Ok(())
    }

    /// Reads on to so many bytes, or by a step where that is more, up to the input's end or one byte over its limit.
    pub fn fill_to<S: Source>(&mut self, source: &mut S, count: usize) -> Result<(), LoadStop>
        requires at_end { self.old.ended ≡ true → IsAtEnd (S.left source.old) }
        ensures ok { OnOk result (IsFilled count self.new) }
        ensures too_large { result ≡ Err stops.TooLarge → reach self.new ≡ self.new.most + 1 }
        ensures moved { MovesFront (S.left source.old) (S.left source.new) self.old.kept self.new.kept }
        ensures within { length self.new.kept ≤ fill_limit count (length self.old.kept) }
        ensures same { (self.new.base ≡ self.old.base) × (self.new.most ≡ self.old.most) }
        ensures stays { self.old.ended ≡ true → self.new ≡ self.old }
        ensures enough { count ≤ length self.old.kept → self.new ≡ self.old }
        ensures at_end { self.new.ended ≡ true → IsAtEnd (S.left source.new) }
        ensures held { S.held source.new ≡ S.held source.old }
        ensures count { S.faults source.old ≤ S.faults source.new }
        ensures failed { result ≡ Err stops.Failed → Rose (S.faults source.old) (S.faults source.new) }
    {
        if self.ended {
            return Ok(());
        }
        if self.len() < count {
            let missing = count - self.len();
            self.read_on(source, missing)?;
        }
        if self.base + self.len() as u64 > self.most {
            return Err(LoadStop::TooLarge);
        }
        Ok(())
    }

    /// Reads on to the input's end, or one byte over its limit, and drops what comes.
    pub fn read_past<S: Source>(&mut self, source: &mut S) -> Result<(), LoadStop>
        requires at_end { self.old.ended ≡ true → IsAtEnd (S.left source.old) }
        ensures ok { OnOk result ((self.new.ended ≡ true) × (reach self.new ≤ self.new.most)) }
        ensures too_large { result ≡ Err stops.TooLarge → reach self.new ≡ self.new.most + 1 }
        ensures moved { ReachesOn (S.left source.old) (S.left source.new) self.old self.new }
        ensures stays { self.old.ended ≡ true → self.new ≡ self.old }
        ensures at_end { self.new.ended ≡ true → IsAtEnd (S.left source.new) }
        ensures held { S.held source.new ≡ S.held source.old }
        ensures count { S.faults source.old ≤ S.faults source.new }
        ensures failed { result ≡ Err stops.Failed → Rose (S.faults source.old) (S.faults source.new) }
    {
        while !self.ended {
            let len = self.len();
            self.drop_front(len);
            self.fill_to(source, STEP)?;
        }
        Ok(())
    }
}
