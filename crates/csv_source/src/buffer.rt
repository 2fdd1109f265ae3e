// Bytes as they are read, in memory that is used again.
ghost use Rattle.std.specs.Prelude.{◌≡◌, ◌+◌, ◌<◌, ◌≤◌, [], length, take, drop, IfOk, Ok, Err, OnOk, OnErr};
ghost use Rattle.std.specs.Io.KnownBytes.{IsAtEnd};
ghost use Rattle.csv_source.specs.Causes.{Rose};
ghost use Rattle.csv_source.specs.declared.reading.More.TheVariants as more;
ghost use Rattle.csv_source.specs.declared.reading.ReadStop.TheVariants as stops;
ghost use Rattle.csv_source.specs.Moves.{MovesFront, IsEnd};

use crate::reading::{More, ReadStop};
use crate::{NoMemory, Source};
use std::alloc::Global;
use std::marker::Model;

/// The most bytes of one read.
const PIECE: usize = 262_144;

/// The most bytes of the first read: memory has to be initialised before a read, and most small inputs end in these.
const FIRST_PIECE: usize = 16_384;

/// Bytes that were read. They come straight into memory that is initialised once, and used again where bytes were dropped.
#[derive(Drop)]
pub struct Buffer {
    /// The initialised memory. Its front was read.
    memory: Vec<u8>,
    /// How many bytes were read.
    filled: usize,
}

impl Model for Buffer {
    ghost use Rattle.std.specs.Prelude.{ℕ, ◌≤◌, List, length, take};

    ghost Value = { List ℕ };

    ghost view = { λ b. take b.filled b.memory.items };

    ghost invariant = { λ b. b.filled ≤ length b.memory.items };
}

/// Makes a memory so long. It grows by doubling, but not over `most` bytes where they are enough.
fn extend(memory: &mut Vec<u8>, to: usize, most: usize) -> Result<(), NoMemory>
    requires { to ≤ most }
    ensures ok { OnOk result (to ≤ length memory.new.items) }
    ensures same { take (length memory.old.items) memory.new.items ≡ memory.old.items }
    ensures grows { length memory.old.items ≤ length memory.new.items }
{
    let (len, capacity) = (memory.len(), memory.capacity());
    if to <= len {
        return Ok(());
    }
    if capacity < to {
        let wanted = most.min(to.max(capacity.saturating_mul(2)));
        memory.reserve_exact(wanted - len)?;
    }
    memory.resize(to, 0)?;
    Ok(())
}

impl Buffer {
    /// No bytes.
    pub fn new(alloc: Global) -> Buffer
        ensures { result ≡ [] }
    {
        Buffer {
            memory: Vec::new(alloc),
            filled: 0,
        }
    }

    pub fn as_slice(&self) -> &[u8]
        ensures { result.now ≡ self.now }
    {
        &self.memory[..self.filled]
    }

    pub fn len(&self) -> usize
        ensures { result ≡ length self.now }
    {
        self.filled
    }

    /// Drops the first bytes, and moves the others to the front.
    pub fn drop_front(&mut self, count: usize)
        requires { count ≤ length self.old }
        ensures { self.new ≡ drop count self.old }
    {
        self.memory.copy_within(count..self.filled, 0);
        self.filled -= count;
    }

    /// Holds a copy of these bytes instead, in the memory that it has.
    pub fn replace(&mut self, bytes: &[u8]) -> Result<(), NoMemory>
        ensures ok { OnOk result (self.new ≡ bytes.now) }
        ensures err { OnErr result (self.new ≡ self.old) }
    {
        let to = bytes.len();
        extend(&mut self.memory, to, to)?;
        let (front, _) = self.memory.split_at_mut(to);
        front.copy_from_slice(bytes);
        self.filled = to;
        Ok(())
    }

    /// How many bytes the next read asks for: as many as were read so far, so that little memory is initialised for few bytes,
    /// or as go into the memory that is there.
    fn next_piece(&self) -> usize
        ensures some { 0 < result }
        ensures within { result ≤ PIECE }
    {
        let spare = self.memory.len() - self.filled;
        self.filled.max(spare).max(FIRST_PIECE).min(PIECE)
    }

    /// Reads once, at most so many bytes, and answers how many came.
    fn read_piece<S: Source>(&mut self, source: &mut S, missing: u64) -> Result<usize, ReadStop>
        requires some { 0 < missing }
        ensures moved { MovesFront (S.left source.old) (S.left source.new) self.old self.new }
        ensures ok { IfOk result (λ count. (length self.new ≡ length self.old + count) × (count ≤ missing)) }
        ensures none { result ≡ Ok 0 → IsAtEnd (S.left source.new) }
        ensures err { OnErr result (self.new ≡ self.old) }
        ensures held { S.held source.new ≡ S.held source.old }
        ensures count { S.faults source.old ≤ S.faults source.new }
        ensures failed { result ≡ Err stops.Failed → Rose (S.faults source.old) (S.faults source.new) }
    {
        let to = self.filled + missing.min(self.next_piece() as u64) as usize;
        let most = self.filled.saturating_add(missing as usize);
        let Ok(()) = extend(&mut self.memory, to, most) else {
            return Err(ReadStop::NoMemory);
        };
        match source.read(&mut self.memory[self.filled..to]) {
            Ok(count) => {
                self.filled += count;
                Ok(count)
            }
            Err(_) => Err(ReadStop::Failed),
        }
    }

    /// Reads on until nothing is left or `most` bytes came, and no further.
    pub fn read_more<S: Source>(&mut self, source: &mut S, most: u64) -> Result<More, ReadStop>
        // Whatever the answer, the bytes grew by the front of what was left, and the rest is left.
        ensures moved { MovesFront (S.left source.old) (S.left source.new) self.old self.new }
        ensures held { S.held source.new ≡ S.held source.old }

        // All that was left is fewer than `most` bytes, or exactly `most` bytes came.
        ensures ended { result ≡ Ok more.Ended → IsEnd (S.left source.new) (length self.new) (length self.old + most) }
        ensures reached { result ≡ Ok more.Reached → length self.new ≡ length self.old + most }
        ensures within { length self.new ≤ length self.old + most }

        ensures count { S.faults source.old ≤ S.faults source.new }
        ensures failed { result ≡ Err stops.Failed → Rose (S.faults source.old) (S.faults source.new) }
        // Refused before so many bytes came.
        ensures short { OnErr result (length self.new < length self.old + most) }
    {
        let mut missing = most;
        while missing > 0 {
            let count = self.read_piece(source, missing)?;
            if count == 0 {
                return Ok(More::Ended);
            }
            missing -= count as u64;
        }
        Ok(More::Reached)
    }
}
