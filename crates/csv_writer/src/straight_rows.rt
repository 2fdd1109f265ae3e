// Rows that are written straight to a sink, with no memory.
ghost use Rattle.std.specs.Prelude.{◌≡◌, ◌<◌, [], length, slice_index_or, All};
ghost use Rattle.text_pieces.specs.Writes.{Writes};
ghost use Rattle.csv_writer.specs.Writable.{IsWritableRow};
ghost use Rattle.csv_writer.specs.WrittenTable.{row_line};

use crate::straight::write_field;
use column_store::{Chunk, Table};
use csv_source::{Failed, Sink};
use text_pieces::write_text;

/// Writes the line of a row.
fn write_row<K: Sink>(sink: &mut K, chunk: &Chunk, row: usize) -> Result<(), Failed>
    requires within { row < length chunk.now.rows }
    requires full { length (slice_index_or chunk.now.rows row []) ≡ length chunk.now.types }
    requires writable { IsWritableRow (slice_index_or chunk.now.rows row []) }
    ensures { Writes (K.taken sink.old) (K.taken sink.new) (K.faults sink.old) (K.faults sink.new) result (row_line (slice_index_or chunk.now.rows row [])) }
{
    for column in 0..chunk.columns() {
        write_field(sink, column, chunk.cell_at(column, row))?;
    }
    write_text(sink, b"\n")
}

/// The chunk that has a row, and the row's place there.
fn chunk_with(table: &Table, row: usize) -> (&Chunk, usize)
    requires within { row < length table.now.rows }
    ensures within { result.1 < length result.0.now.rows }
    ensures same { slice_index_or result.0.now.rows result.1 [] ≡ slice_index_or table.now.rows row [] }
{
    let (earlier, last) = table.chunks();
    let mut place = row;
    for chunk in earlier {
        if place < chunk.rows() {
            return (chunk, place);
        }
        place -= chunk.rows();
    }
    (last, place)
}

/// Writes the line of a row, whose chunk is sought.
pub(crate) fn write_line<K: Sink>(sink: &mut K, table: &Table, row: usize) -> Result<(), Failed>
    requires within { row < length table.now.rows }
    requires writable { All IsWritableRow table.now.rows }
    ensures { Writes (K.taken sink.old) (K.taken sink.new) (K.faults sink.old) (K.faults sink.new) result (row_line (slice_index_or table.now.rows row [])) }
{
    let (chunk, place) = chunk_with(table, row);
    chunk.rows_are_full();
    write_row(sink, chunk, place)
}
