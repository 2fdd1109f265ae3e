// The rows of a table as records.
ghost use Rattle.std.specs.Prelude.{◌≡◌, ◌<◌, ◌≤◌, ◌+◌, ◌∷◌, [], length, slice_index_or, slice_range, All, IfOk, OnOk};
ghost use Rattle.csv_writer.specs.Writable.{IsWritableRow};
ghost use Rattle.db_records.specs.Record.{record_bytes};
ghost use Rattle.db_pages.specs.Grown.{filled};
ghost use Rattle.db_writer.specs.Stored.{stored_row};
ghost use Rattle.db_writer.specs.Written.{no_values, records_of, with_records};

use crate::row_writer::RowWriter;
use column_store::{Chunk, Table};
use csv_source::NoMemory;
use db_pages::Leaves;
use std::alloc::Global;

/// Appends a row of a chunk.
fn push_row(writer: &mut RowWriter, chunk: &Chunk, row: usize) -> Result<(), NoMemory>
    requires none { writer.old.values ≡ no_values }
    requires within { row < length chunk.now.rows }
    requires full { length (slice_index_or chunk.now.rows row []) ≡ length chunk.now.types }
    requires writable { IsWritableRow (slice_index_or chunk.now.rows row []) }
    ensures ok { OnOk result (writer.new ≡ with_records writer.old (record_bytes (stored_row (slice_index_or chunk.now.rows row [])) ∷ [])) }
{
    for column in 0..chunk.columns() {
        writer.push_cell(chunk.cell_at(column, row))?;
    }
    writer.end_row()
}

/// Appends those rows from `from` to before `to` that a chunk has.
fn push_part(writer: &mut RowWriter, chunk: &Chunk, from: usize, to: usize) -> Result<(), NoMemory>
    requires none { writer.old.values ≡ no_values }
    requires ordered { from ≤ to }
    requires writable { All IsWritableRow chunk.now.rows }
    ensures ok { OnOk result (writer.new ≡ with_records writer.old (records_of (slice_range chunk.now.rows from to))) }
{
    chunk.rows_are_full();
    let rows = chunk.rows();
    let first = from.min(rows);
    for row in first..to.min(rows) {
        writer.make_room(chunk, row);
        push_row(writer, chunk, row)?;
    }
    Ok(())
}

/// Appends the rows from `from` to before `to`, chunk by chunk.
fn push_rows(writer: &mut RowWriter, table: &Table, from: usize, to: usize) -> Result<(), NoMemory>
    requires none { writer.old.values ≡ no_values }
    requires ordered { from ≤ to }
    requires writable { All IsWritableRow table.now.rows }
    ensures ok { OnOk result (writer.new ≡ with_records writer.old (records_of (slice_range table.now.rows from to))) }
{
    let (earlier, last) = table.chunks();
    let mut low = from;
    let mut high = to;
    for chunk in earlier {
        push_part(writer, chunk, low, high)?;
        low = low.saturating_sub(chunk.rows());
        high = high.saturating_sub(chunk.rows());
    }
    push_part(writer, last, low, high)
}

/// The rows from `from` to before `to`, laid out behind so many pages.
pub(crate) fn write_rows(
    alloc: Global,
    table: &Table,
    from: usize,
    to: usize,
    base: u64,
) -> Result<Leaves, NoMemory>
    requires ordered { from ≤ to }
    requires within { to ≤ length table.now.rows }
    requires writable { All IsWritableRow table.now.rows }
    ensures ok { IfOk result (λ leaves. leaves ≡ filled base (from + 1) (records_of (slice_range table.now.rows from to))) }
{
    let first = (from as u64).checked_add(1).ok_or(NoMemory)?;
    let mut writer = RowWriter::new(alloc, base, first);
    writer.reserve((to - from).saturating_mul(table.columns()));
    push_rows(&mut writer, table, from, to)?;
    Ok(writer.into_leaves())
}
