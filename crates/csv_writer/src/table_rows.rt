// A table's rows as lines.
ghost use Rattle.std.specs.Prelude.{◌≡◌, All};
ghost use Rattle.csv_writer.specs.Writable.{IsWritableRow};

use crate::rows::{rows_room, write_rows};
use crate::straight_rows::write_line;
use column_store::Table;
use csv_source::{Failed, NoMemory, Sink};
use std::marker::Model;
use text_pieces::{Draft, RowLines};

/// The rows of a table, each with its line of CSV text.
#[derive(Drop)]
pub struct TableRows {
    table: Table,
}

impl Model for TableRows {
    ghost use Rattle.std.specs.Prelude.{List, All};
    ghost use Rattle.value_types.specs.Datum.{Datum};
    ghost use Rattle.csv_writer.specs.Writable.{IsWritableRow};

    ghost Value = { List (List Datum) };

    ghost view = { λ r. r.table.rows };

    ghost invariant = { λ r. All IsWritableRow r.table.rows };
}

impl TableRows {
    /// The rows of a table.
    pub fn new(table: Table) -> TableRows
        requires writable { All IsWritableRow table.rows }
        ensures { result ≡ table.rows }
    {
        TableRows { table }
    }
}

impl RowLines for TableRows {
    ghost use Rattle.std.specs.Prelude.{map};
    ghost use Rattle.csv_writer.specs.WrittenTable.{row_line};

    ghost lines = { λ rows. map row_line rows };

    fn count(&self) -> usize {
        self.table.rows()
    }

    fn room(&self, rows: usize) -> usize {
        rows_room(rows, self.table.columns())
    }

    fn append(&self, from: usize, to: usize, into: &mut Draft) -> Result<(), NoMemory> {
        write_rows(&self.table, from, to, into)
    }

    fn write_line<K: Sink>(&self, row: usize, sink: &mut K) -> Result<(), Failed> {
        write_line(sink, &self.table, row)
    }
}
