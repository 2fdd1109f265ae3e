// How the bytes of a file go through its cuts.
ghost use Rattle.std.specs.Prelude.{◌≡◌, ◌⊎◌, ◌≤◌, ◌+◌, length, take, drop, true, false, OnOk, Ok, Err, IfOk};
ghost use Rattle.std.specs.Io.KnownBytes.{IsAtEnd};
ghost use Rattle.csv_source.specs.Causes.{Rose};
ghost use Rattle.csv_source.specs.Moves.{MovesFront};
ghost use Rattle.csv_source.specs.declared.reading.ReadStop.TheVariants as stops;
ghost use Rattle.part_cuts.specs.Reading.{reading};
ghost use Rattle.part_cuts.specs.Within.{most_bytes};
ghost use Rattle.file_split.specs.WholeFile.{bytes_passed, IsPassed};

use crate::file_piece::FilePiece;
use csv_source::{ReadStop, Source};
use part_cuts::{Cuts, MOST_BYTES};

/// How many bytes are read at once.
const PIECE: u64 = 262_144;

/// How many bytes behind those that go through are seen.
const SEEN: usize = 2;

impl FilePiece {
    /// Lets the first bytes go through.
    fn pass(&self, cuts: &mut Cuts, count: usize) -> Result<(), ReadStop>
        requires within { count ≤ length self.now.bytes }
        requires fits { cuts.old.tally.bytes + count ≤ most_bytes }
        ensures ok { OnOk result (cuts.new ≡ reading cuts.old (take count self.now.bytes) (drop count self.now.bytes)) }
        ensures bytes { OnOk result (cuts.new.tally.bytes ≡ cuts.old.tally.bytes + count) }
        ensures stop { ¬ (result ≡ Err stops.Failed) }
    {
        match cuts.pass(self.bytes.as_slice(), count) {
            Ok(()) => Ok(()),
            Err(_) => Err(ReadStop::NoMemory),
        }
    }

    /// Lets all bytes but the last two go through, and drops them.
    fn pass_front(&mut self, cuts: &mut Cuts) -> Result<(), ReadStop>
        requires within { cuts.old.tally.bytes + length self.old.bytes ≤ most_bytes }
        ensures kept { OnOk result (self.new.bytes ≡ drop (bytes_passed self.old.bytes) self.old.bytes) }
        ensures read { let n = bytes_passed self.old.bytes in
            OnOk result (cuts.new ≡ reading cuts.old (take n self.old.bytes) (drop n self.old.bytes)) }
        ensures bytes { OnOk result (cuts.new.tally.bytes ≡ cuts.old.tally.bytes + bytes_passed self.old.bytes) }
        ensures same { self.new.ended ≡ self.old.ended }
        ensures stop { ¬ (result ≡ Err stops.Failed) }
    {
        let count = self.bytes.len().saturating_sub(SEEN);
        self.pass(cuts, count)?;
        self.bytes.drop_front(count);
        Ok(())
    }

    /// Reads the next piece of a file of which so many bytes came before, and answers whether it keeps the limit with it.
    fn read_next<S: Source>(&mut self, before: u64, source: &mut S) -> Result<bool, ReadStop>
        requires going { self.old.ended ≡ false }
        requires within { before + length self.old.bytes ≤ most_bytes }
        ensures within { result ≡ Ok true → before + length self.new.bytes ≤ most_bytes }
        ensures grows { result ≡ Ok true → (self.new.ended ≡ true) ⊎ (length self.old.bytes + 1 ≤ length self.new.bytes) }
        ensures over { result ≡ Ok false → before + length self.new.bytes ≡ most_bytes + 1 }
        ensures moved { MovesFront (S.left source.old) (S.left source.new) self.old.bytes self.new.bytes }
        ensures at_end { self.new.ended ≡ true → IsAtEnd (S.left source.new) }
        ensures held { S.held source.new ≡ S.held source.old }
        ensures count { S.faults source.old ≤ S.faults source.new }
        ensures failed { result ≡ Err stops.Failed → Rose (S.faults source.old) (S.faults source.new) }
    {
        let room = MOST_BYTES + 1 - before - self.bytes.len() as u64;
        self.read_on(source, room.min(PIECE))?;
        Ok(before + self.bytes.len() as u64 <= MOST_BYTES)
    }

    /// Lets these bytes and the rest of the file go through, unless the file is over its limit, and answers whether it keeps it.
    pub(crate) fn pass_all<S: Source>(
        &mut self,
        cuts: &mut Cuts,
        source: &mut S,
    ) -> Result<bool, ReadStop>
        requires within { cuts.old.tally.bytes + length self.old.bytes ≤ most_bytes }
        requires at_end { self.old.ended ≡ true → IsAtEnd (S.left source.old) }
        ensures ok { IfOk result (IsPassed (S.left source.old) (S.left source.new) self.old cuts.old cuts.new) }
        ensures held { S.held source.new ≡ S.held source.old }
        ensures count { S.faults source.old ≤ S.faults source.new }
        ensures failed { result ≡ Err stops.Failed → Rose (S.faults source.old) (S.faults source.new) }
    {
        while !self.ended {
            self.pass_front(cuts)?;
            if !self.read_next(cuts.tally().bytes, source)? {
                return Ok(false);
            }
        }
        self.pass(cuts, self.bytes.len())?;
        Ok(true)
    }
}
