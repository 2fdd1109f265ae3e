// The lines of rows.
ghost use Rattle.std.specs.Prelude.{◌≡◌, ◌<◌, ◌≤◌, ◌++◌, [], flat_map, length, slice_index_or, slice_range, All, OnOk};
ghost use Rattle.value_types.specs.Datum.{datum_of};
ghost use Rattle.report_text.specs.Lines.{cell_text, row_line};
ghost use Rattle.value_types.specs.Spelled.{IsSpelledCell};
ghost use Rattle.report_text.specs.PrintableRows.{IsPrintableRow};

use crate::shown::push_shown;
use column_store::{Chunk, Table};
use csv_source::NoMemory;
use text_pieces::{CELL_ROOM, Draft};
use value_types::Cell;

/// About how many bytes so many rows take, by 16 bytes a cell.
pub(crate) fn rows_room(rows: usize, columns: usize) -> usize {
    rows.saturating_mul(columns.saturating_mul(16))
}

/// Appends a cell.
#[inline(always)]
fn push_cell(into: &mut Draft, cell: Cell<'_>) -> Result<(), NoMemory>
    requires spelled { IsSpelledCell (datum_of cell) }
    requires room { 32 ≤ into.old.room }
    ensures { OnOk result (into.new.text ≡ into.old.text ++ cell_text (datum_of cell.entry)) }
{
    match cell {
        Cell::Null => into.append(b"\\N"),
        Cell::Value(value) => {
            into.put_value(&value);
            Ok(())
        }
        Cell::Text(text) => push_shown(into, text),
    }
}

/// Appends the line of a row.
fn push_row(into: &mut Draft, chunk: &Chunk, row: usize) -> Result<(), NoMemory>
    requires within { row < length chunk.now.rows }
    requires fits { IsPrintableRow chunk.now.types (slice_index_or chunk.now.rows row []) }
    ensures { OnOk result (into.new.text ≡ into.old.text ++ row_line (slice_index_or chunk.now.rows row [])) }
{
    into.append(b"row")?;
    for column in 0..chunk.columns() {
        into.make_room(CELL_ROOM)?;
        into.put(b'|');
        push_cell(into, chunk.cell_at(column, row))?;
    }
    into.push(b'\n')?;
    Ok(())
}

/// Appends the lines of those rows from `from` to before `to` that a chunk has.
fn push_part(into: &mut Draft, chunk: &Chunk, from: usize, to: usize) -> Result<(), NoMemory>
    requires ordered { from ≤ to }
    requires fits { All (IsPrintableRow chunk.now.types) chunk.now.rows }
    ensures { OnOk result (into.new.text ≡ into.old.text ++ flat_map row_line (slice_range chunk.now.rows from to)) }
{
    let rows = chunk.rows();
    let first = from.min(rows);
    for row in first..to.min(rows) {
        into.reserve(chunk.coming_room(row));
        push_row(into, chunk, row)?;
    }
    Ok(())
}

/// Appends the lines of the rows from `from` to before `to`, chunk by chunk.
pub(crate) fn push_rows(
    into: &mut Draft,
    table: &Table,
    from: usize,
    to: usize,
) -> Result<(), NoMemory>
    requires ordered { from ≤ to }
    requires fits { All (IsPrintableRow table.now.types) table.now.rows }
    ensures { OnOk result (into.new.text ≡ into.old.text ++ flat_map row_line (slice_range table.now.rows from to)) }
{
    let (earlier, last) = table.chunks();
    let mut low = from;
    let mut high = to;
    for chunk in earlier {
        push_part(into, chunk, low, high)?;
        low = low.saturating_sub(chunk.rows());
        high = high.saturating_sub(chunk.rows());
    }
    push_part(into, last, low, high)
}
