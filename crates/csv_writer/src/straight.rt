// Fields that are written straight to a sink, with no memory.
ghost use Rattle.std.specs.Prelude.{◌≤◌, ◌++◌, length, slice_range};
ghost use Rattle.text_pieces.specs.Writes.{Writes};
ghost use Rattle.value_types.specs.Datum.{datum_of};
ghost use Rattle.value_types.specs.Spelled.{IsSpelledCell};
ghost use Rattle.csv_writer.specs.Quoting.{doubled, quote_at, quoted};
ghost use Rattle.csv_writer.specs.Steps.{comma_before};
ghost use Rattle.csv_writer.specs.WrittenTable.{cell_field, text_field};

use crate::quotes::{needs_quotes, quote_place};
use csv_source::{Failed, Sink};
use text_pieces::{write_text, write_value};
use value_types::Cell;

/// Writes the bytes between two places, and the quote there, if there is one, doubled.
fn write_stretch<K: Sink>(sink: &mut K, text: &[u8], at: usize, end: usize) -> Result<(), Failed>
    requires ordered { at ≤ end }
    requires within { end ≤ length text.now }
    ensures { Writes (K.taken sink.old) (K.taken sink.new) (K.faults sink.old) (K.faults sink.new) result (slice_range text.now at end ++ quote_at end text.now) }
{
    write_text(sink, &text[at..end])?;
    if end == text.len() {
        return Ok(());
    }
    write_text(sink, b"\"\"")
}

/// Writes a text with each quote doubled.
fn write_doubled<K: Sink>(sink: &mut K, text: &[u8]) -> Result<(), Failed>
    ensures { Writes (K.taken sink.old) (K.taken sink.new) (K.faults sink.old) (K.faults sink.new) result (doubled text.now) }
{
    let mut at = 0;
    while at < text.len() {
        let end = quote_place(text, at);
        write_stretch(sink, text, at, end)?;
        at = end + 1;
    }
    Ok(())
}

/// Writes a text between quotes.
fn write_quoted<K: Sink>(sink: &mut K, text: &[u8]) -> Result<(), Failed>
    ensures { Writes (K.taken sink.old) (K.taken sink.new) (K.faults sink.old) (K.faults sink.new) result (quoted text.now) }
{
    write_text(sink, b"\"")?;
    write_doubled(sink, text)?;
    write_text(sink, b"\"")
}

/// Writes the field of a text.
fn write_text_field<K: Sink>(sink: &mut K, text: &[u8]) -> Result<(), Failed>
    ensures { Writes (K.taken sink.old) (K.taken sink.new) (K.faults sink.old) (K.faults sink.new) result (text_field text.now) }
{
    if needs_quotes(text) {
        return write_quoted(sink, text);
    }
    write_text(sink, text)
}

/// Writes the field of a cell.
fn write_cell<K: Sink>(sink: &mut K, cell: Cell<'_>) -> Result<(), Failed>
    requires spelled { IsSpelledCell (datum_of cell) }
    ensures { Writes (K.taken sink.old) (K.taken sink.new) (K.faults sink.old) (K.faults sink.new) result (cell_field (datum_of cell.entry)) }
{
    match cell {
        Cell::Null => write_text(sink, b""),
        Cell::Value(value) => write_value(sink, &value),
        Cell::Text(text) => write_text_field(sink, text),
    }
}

/// Writes the field of a cell with the comma before it, if its column, counted from 0, isn't the first.
pub(crate) fn write_field<K: Sink>(
    sink: &mut K,
    column: usize,
    cell: Cell<'_>,
) -> Result<(), Failed>
    requires spelled { IsSpelledCell (datum_of cell) }
    ensures { Writes (K.taken sink.old) (K.taken sink.new) (K.faults sink.old) (K.faults sink.new) result (comma_before column ++ cell_field (datum_of cell.entry)) }
{
    if column == 0 {
        return write_cell(sink, cell);
    }
    write_text(sink, b",")?;
    write_cell(sink, cell)
}
