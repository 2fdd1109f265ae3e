// A text whose rows are made as they are written.
ghost use Rattle.std.specs.Prelude.{◌≡◌, ◌<◌, ◌≤◌, ◌++◌, drop, length, All, IfOk, OnOk};
ghost use Rattle.std.specs.Io.KnownBytes.{Appends};
ghost use Rattle.std.specs.List.{concat};
ghost use Rattle.csv_source.specs.Causes.{HasCause};
ghost use Rattle.csv_source.specs.Moves.{AppendsFront};
ghost use Rattle.text_pieces.specs.Writes.{Writes};

use crate::draft::Draft;
use crate::rounds::Rounds;
use crate::row_lines::RowLines;
use crate::workers::Workers;
use crate::writing::write_text;
use csv_source::{Failed, NoMemory, Sink};
use std::alloc::Global;
use std::marker::Model;
use std::thread::Threads;

/// Rows of about so many bytes are few: their lines are made at once, so that a short text is one write.
const SHORT: usize = 65_536;

/// A text whose rows are made as they are written: a head, the lines of rows, and a tail. The lines are made block by block in
/// buffers that are used again, so that the text never stands whole in memory. Rows whose buffer finds none are written straight,
/// so that writing never fails for want of it.
#[derive(Drop)]
pub struct RowedText<T: RowLines> {
    head: Vec<u8>,
    rows: T,
    // The first row whose line isn't in the head.
    next: usize,
    rounds: Rounds,
    tail: Vec<u8>,
}

impl<T: RowLines> Model for RowedText<T> {
    ghost use Rattle.std.specs.Prelude.{ℕ, ◌++◌, ◌≤◌, List, drop, length};
    ghost use Rattle.std.specs.List.{concat};
    ghost use Rattle.text_pieces.specs.Blocks.{IsReady};

    ghost Value = { List ℕ };

    ghost view = { λ t. t.head.items ++ (concat (drop t.next (T.lines t.rows)) ++ t.tail.items) };

    ghost invariant = { λ t. (t.next ≤ length (T.lines t.rows)) × IsReady t.rounds };
}

/// The head with the lines of all rows and the tail behind it.
fn join<T: RowLines>(head: Vec<u8>, rows: &T, tail: &[u8]) -> Result<Vec<u8>, NoMemory>
    ensures { IfOk result (λ text. text.items ≡ head.items ++ (concat (T.lines rows.now) ++ tail.now)) }
{
    let mut text = Draft::of(head);
    rows.append(0, rows.count(), &mut text)?;
    text.append(tail)?;
    Ok(text.into_text())
}

impl<T: RowLines + Sync + Drop> RowedText<T> {
    /// A text of these parts, whose lines at most so many threads make. The memory that writing can't do without is had here.
    pub fn new<R>(
        workers: &Workers<'_, R>,
        head: Vec<u8>,
        rows: T,
        tail: Vec<u8>,
    ) -> Result<RowedText<T>, NoMemory>
        ensures { IfOk result (λ text. text ≡ head.items ++ (concat (T.lines rows) ++ tail.items)) }
    {
        let count = rows.count();
        let rounds = Rounds::new(workers, &rows)?;
        if rows.room(count) > SHORT || tail.len() > SHORT {
            return Ok(RowedText {
                head,
                rows,
                next: 0,
                rounds,
                tail,
            });
        }
        Ok(RowedText {
            head: join(head, &rows, &tail)?,
            rows,
            next: count,
            rounds,
            tail: Vec::new(workers.alloc),
        })
    }

    /// Writes all of the text.
    pub fn write<K: Sink, R: Threads + Sync>(self, rt: &R, sink: &mut K) -> Result<(), Failed>
        ensures ok { OnOk result (Appends (K.taken sink.old) (K.taken sink.new) self) }
        // Whatever the answer, the sink has taken a front of the text.
        ensures front { AppendsFront (K.taken sink.old) (K.taken sink.new) self }
        ensures cause { HasCause (K.faults sink.old) (K.faults sink.new) result }
    {
        let RowedText {
            head,
            rows,
            next,
            mut rounds,
            tail,
        } = self;
        write_text(sink, &head)?;
        rounds.write_from(rt, &rows, next, sink)?;
        write_text(sink, &tail)
    }
}
