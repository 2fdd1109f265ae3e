// The rows of a report.
ghost use Rattle.std.specs.Prelude.{◌≡◌, map, All};
ghost use Rattle.report_text.specs.Lines.{row_line};
ghost use Rattle.report_text.specs.PrintableRows.{IsPrintableRow};

use crate::rows::{push_rows, rows_room};
use crate::straight::write_row;
use column_store::Table;
use csv_source::{Failed, NoMemory, Sink};
use std::marker::Model;
use text_pieces::{Draft, RowLines};

/// The rows of a table, as lines of a report.
#[derive(Drop)]
pub struct ReportRows {
    table: Table,
}

impl Model for ReportRows {
    ghost use Rattle.std.specs.Prelude.{ℕ, List, map, All};
    ghost use Rattle.report_text.specs.Lines.{row_line};
    ghost use Rattle.report_text.specs.PrintableRows.{IsPrintableRow};

    ghost Value = { List (List ℕ) };

    ghost view = { λ r. map row_line r.table.rows };

    ghost invariant = { λ r. All (IsPrintableRow r.table.types) r.table.rows };
}

impl ReportRows {
    /// The rows of a table.
    pub fn new(table: Table) -> ReportRows
        requires { All (IsPrintableRow table.types) table.rows }
        ensures { result ≡ map row_line table.rows }
    {
        ReportRows { table }
    }
}

impl RowLines for ReportRows {
    ghost lines = { λ lines. lines };

    fn count(&self) -> usize {
        self.table.rows()
    }

    fn room(&self, rows: usize) -> usize {
        rows_room(rows, self.table.columns())
    }

    fn append(&self, from: usize, to: usize, into: &mut Draft) -> Result<(), NoMemory> {
        push_rows(into, &self.table, from, to)
    }

    fn write_line<K: Sink>(&self, row: usize, sink: &mut K) -> Result<(), Failed> {
        write_row(sink, &self.table, row)
    }
}
