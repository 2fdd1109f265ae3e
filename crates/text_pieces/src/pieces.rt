// A text in pieces.
ghost use Rattle.std.specs.Prelude.{◌≡◌, ◌++◌, [], flat_map, OnOk};
ghost use Rattle.std.specs.Io.KnownBytes.{Appends};
ghost use Rattle.csv_source.specs.Causes.{HasCause};
ghost use Rattle.csv_source.specs.Moves.{AppendsFront};

use csv_source::{Failed, NoMemory, Sink, write_all};
use std::alloc::Global;
use std::marker::Model;
use std::mem;

/// Up to so many bytes pieces are joined: to copy them costs less than a write of their own.
const SHORT: usize = 65_536;

/// A text in pieces, the last of which may still grow.
#[derive(Drop)]
pub struct Pieces {
    earlier: Vec<Vec<u8>>,
    last: Vec<u8>,
}

impl Model for Pieces {
    ghost use Rattle.std.specs.Prelude.{ℕ, ◌++◌, List, flat_map};

    ghost Value = { List ℕ };

    ghost view = { λ p. flat_map (λ piece. piece.items) p.earlier.items ++ p.last.items };
}

/// Writes all of some pieces, one after another.
fn write_each<K: Sink>(sink: &mut K, pieces: &[Vec<u8>]) -> Result<(), Failed>
    ensures ok { OnOk result (Appends (K.taken sink.old) (K.taken sink.new) (flat_map (λ piece. piece.items) pieces.now)) }
    ensures front { AppendsFront (K.taken sink.old) (K.taken sink.new) (flat_map (λ piece. piece.items) pieces.now) }
    ensures cause { HasCause (K.faults sink.old) (K.faults sink.new) result }
{
    for piece in pieces {
        write_all(sink, piece)?;
    }
    Ok(())
}

impl Pieces {
    /// The empty text.
    pub fn new(alloc: Global) -> Pieces
        ensures { result ≡ [] }
    {
        Pieces {
            earlier: Vec::new(alloc),
            last: Vec::new(alloc),
        }
    }

    /// A text of one piece, which isn't copied.
    pub fn of(alloc: Global, text: Vec<u8>) -> Pieces
        ensures { result ≡ text.items }
    {
        Pieces {
            earlier: Vec::new(alloc),
            last: text,
        }
    }

    /// Whether a piece of so many bytes is joined to the last one.
    fn joins(&self, len: usize) -> bool {
        len <= SHORT && self.last.len() <= SHORT
    }

    /// Appends a piece. It is copied only where it is short and stands behind a short one.
    pub fn push(&mut self, piece: Vec<u8>) -> Result<(), NoMemory>
        ensures { OnOk result (self.new ≡ self.old ++ piece.items) }
    {
        if self.joins(piece.len()) {
            self.last.extend_from_slice(&piece)?;
            return Ok(());
        }
        let full = mem::replace(&mut self.last, piece);
        self.earlier.push(full)?;
        Ok(())
    }

    /// Writes all of the text, piece by piece.
    pub fn write<K: Sink>(&self, sink: &mut K) -> Result<(), Failed>
        ensures ok { OnOk result (Appends (K.taken sink.old) (K.taken sink.new) self.now) }
        // Whatever the answer, the sink has taken a front of the text.
        ensures front { AppendsFront (K.taken sink.old) (K.taken sink.new) self.now }
        ensures cause { HasCause (K.faults sink.old) (K.faults sink.new) result }
    {
        write_each(sink, &self.earlier)?;
        write_all(sink, &self.last)
    }
}
