// The lines of rows, written straight to a sink with no memory.
ghost use Rattle.std.specs.Prelude.{◌<◌, [], length, slice_index_or};
ghost use Rattle.value_types.specs.Datum.{datum_of};
ghost use Rattle.value_types.specs.Spelled.{IsSpelledCell};
ghost use Rattle.text_pieces.specs.Writes.{Writes};
ghost use Rattle.report_text.specs.Lines.{cell_text, row_line};
ghost use Rattle.report_text.specs.PrintableRows.{IsPrintableRow};

use crate::shown::write_shown;
use column_store::Table;
use csv_source::{Failed, Sink};
use text_pieces::{write_text, write_value};
use value_types::Cell;

/// Writes a cell.
fn write_cell<K: Sink>(sink: &mut K, cell: Cell<'_>) -> Result<(), Failed>
    requires { IsSpelledCell (datum_of cell) }
    ensures { Writes (K.taken sink.old) (K.taken sink.new) (K.faults sink.old) (K.faults sink.new) result (cell_text (datum_of cell.entry)) }
{
    match cell {
        Cell::Null => write_text(sink, b"\\N"),
        Cell::Value(value) => write_value(sink, &value),
        Cell::Text(text) => write_shown(sink, text),
    }
}

/// Writes the line of a row. It is slower than to append it to a text, and for a row alone for which there is no memory.
pub(crate) fn write_row<K: Sink>(sink: &mut K, table: &Table, row: usize) -> Result<(), Failed>
    requires within { row < length table.now.rows }
    requires fits { IsPrintableRow table.now.types (slice_index_or table.now.rows row []) }
    ensures { Writes (K.taken sink.old) (K.taken sink.new) (K.faults sink.old) (K.faults sink.new) result (row_line (slice_index_or table.now.rows row [])) }
{
    write_text(sink, b"row")?;
    for column in 0..table.columns() {
        write_text(sink, b"|")?;
        write_cell(sink, table.cell_at(column, row))?;
    }
    write_text(sink, b"\n")
}
