// Rows that are written through a buffer that was had before.
ghost use Rattle.std.specs.Prelude.{◌≡◌, ◌≤◌, length, slice_range};
ghost use Rattle.std.specs.List.{concat};
ghost use Rattle.text_pieces.specs.Writes.{Writes};

use crate::draft::Draft;
use crate::fit::fit;
use crate::row_lines::RowLines;
use crate::writing::write_text;
use csv_source::{Failed, NoMemory, Sink};
use std::alloc::Global;

/// About so many bytes of lines are written at once. A write of more would hardly be cheaper by the byte.
const SPARE_BYTES: usize = 1 << 16;

/// A buffer that was had before the first byte was written, for rows whose lines nobody has made: without one each field, comma
/// and line end of theirs would be a write of its own.
#[derive(Drop)]
pub(crate) struct Spare {
    text: Draft,
    // So many rows are made at once: they grow in number up to what finds room.
    rows: usize,
}

impl Spare {
    /// A buffer without room.
    pub(crate) fn none(alloc: Global) -> Spare {
        Spare {
            text: Draft::new(alloc),
            rows: 1,
        }
    }

    /// A buffer in which the lines of rows find room, however little memory there is later.
    pub(crate) fn with_room(alloc: Global) -> Result<Spare, NoMemory> {
        let mut spare = Spare::none(alloc);
        spare.text.make_room(SPARE_BYTES)?;
        Ok(spare)
    }

    /// How many rows are made at once.
    pub(crate) fn rows(&self) -> usize {
        self.rows
    }

    /// Makes the lines of rows from `from` on, at most of those before `to`, and answers the end of those that found room.
    fn make<T: RowLines>(&mut self, rows: &T, from: usize, to: usize) -> usize
        requires ordered { from ≤ to }
        requires within { to ≤ length (T.lines rows.now) }
        ensures ordered { from ≤ result }
        ensures within { result ≤ to }
        ensures text { self.new.text.text ≡ concat (slice_range (T.lines rows.now) from result) }
    {
        let mut count = self.rows.min(to - from);
        while count > 0 {
            self.text.truncate(0);
            if rows.append(from, from + count, &mut self.text).is_ok() {
                if count == self.rows {
                    self.rows = fit(count, self.text.len(), SPARE_BYTES);
                }
                return from + count;
            }
            count /= 2;
            self.rows = count.max(1);
        }
        self.text.truncate(0);
        from
    }

    /// Writes the lines of the rows from `from` to before `to`. A row that finds no room is written straight.
    pub(crate) fn write<T: RowLines, K: Sink>(
        &mut self,
        rows: &T,
        from: usize,
        to: usize,
        sink: &mut K,
    ) -> Result<(), Failed>
        requires ordered { from ≤ to }
        requires within { to ≤ length (T.lines rows.now) }
        ensures { Writes (K.taken sink.old) (K.taken sink.new) (K.faults sink.old) (K.faults sink.new) result (concat (slice_range (T.lines rows.now) from to)) }
    {
        let mut at = from;
        while at < to {
            let end = self.make(rows, at, to);
            if end > at {
                write_text(sink, self.text.as_slice())?;
                at = end;
                continue;
            }
            rows.write_line(at, sink)?;
            at += 1;
        }
        Ok(())
    }
}
