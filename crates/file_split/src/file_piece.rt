// Some bytes of a file.
ghost use Rattle.std.specs.Prelude.{◌≡◌, ◌⊎◌, ◌≤◌, ◌+◌, [], length, true, false, OnOk, Err};
ghost use Rattle.std.specs.Io.KnownBytes.{IsAtEnd};
ghost use Rattle.csv_source.specs.Causes.{Rose};
ghost use Rattle.csv_source.specs.Moves.{MovesFront};
ghost use Rattle.csv_source.specs.declared.reading.ReadStop.TheVariants as stops;

use csv_source::{Buffer, More, ReadStop, Source};
use std::alloc::Global;

/// Some bytes of a file one behind the other.
#[derive(Drop)]
pub struct FilePiece {
    pub bytes: Buffer,
    /// Whether the file ends behind them.
    pub ended: bool,
}

impl FilePiece {
    /// No bytes yet.
    pub fn new(alloc: Global) -> FilePiece
        ensures bytes { result.bytes ≡ [] }
        ensures going { result.ended ≡ false }
    {
        FilePiece {
            bytes: Buffer::new(alloc),
            ended: false,
        }
    }

    /// Reads on by so many bytes, or up to the file's end.
    pub fn read_on<S: Source>(&mut self, source: &mut S, count: u64) -> Result<(), ReadStop>
        requires going { self.old.ended ≡ false }
        ensures ok { OnOk result ((self.new.ended ≡ true) ⊎ (length self.new.bytes ≡ length self.old.bytes + count)) }
        ensures moved { MovesFront (S.left source.old) (S.left source.new) self.old.bytes self.new.bytes }
        ensures within { length self.new.bytes ≤ length self.old.bytes + count }
        ensures short { self.new.ended ≡ true → length self.new.bytes + 1 ≤ length self.old.bytes + count }
        ensures at_end { self.new.ended ≡ true → IsAtEnd (S.left source.new) }
        ensures held { S.held source.new ≡ S.held source.old }
        ensures count { S.faults source.old ≤ S.faults source.new }
        ensures failed { result ≡ Err stops.Failed → Rose (S.faults source.old) (S.faults source.new) }
    {
        match self.bytes.read_more(source, count)? {
            More::Ended => self.ended = true,
            More::Reached => {}
        }
        Ok(())
    }
}
