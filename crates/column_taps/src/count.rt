// A tap that counts.
ghost use Rattle.std.specs.Prelude.{◌≡◌, ◌<◌, ◌^◌, length, count_by};
ghost use Rattle.value_types.specs.Datum.{datum_of};
ghost use Rattle.column_taps.specs.declared.kind.TapKind.TheVariants.{Count};
ghost use Rattle.column_taps.specs.Seen.{is_filled, nothing_seen};

use crate::lines::push_line;
use crate::{RowTap, TapKind, Tapped};
use csv_source::NoMemory;
use itoa::Buffer;
use marks::filled_in;
use value_types::{Cell, Cells, ColumnView};

/// Counts the rows, and their cells that aren't null. Its line is `tap|count|ROWS|CELLS`.
#[derive(Drop)]
pub struct CountTap {
    rows: u64,
    cells: u64,
}

fn is_filled(cell: Cell<'_>) -> bool
    ensures { result ≡ is_filled (datum_of cell.entry) }
{
    !matches!(cell, Cell::Null)
}

/// How many cells aren't null.
fn filled(row: &Cells) -> u64
    requires { length row.now < 2 ^ 62 }
    ensures { result ≡ count_by is_filled row.now }
{
    let mut cells = 0;
    for column in 0..row.len() {
        if is_filled(row.get(column)) {
            cells += 1;
        }
    }
    cells
}

mod marks;

impl CountTap {
    /// Has seen nothing.
    pub fn new() -> CountTap
        ensures { ⟦<CountTap as RowTap>⟧.seen result ≡ nothing_seen Count }
    {
        CountTap { rows: 0, cells: 0 }
    }
}

impl RowTap for CountTap {
    ghost use Rattle.column_taps.specs.Seen.{counted};

    ghost seen = { λ tap. counted tap.rows tap.cells };

    fn kind(&self) -> TapKind {
        TapKind::Count
    }

    fn take(&mut self, row: &Cells) -> Result<Tapped, NoMemory> {
        self.rows += 1;
        self.cells += filled(row);
        Ok(Tapped::Goes)
    }

    fn take_columns(
        &mut self,
        rows: usize,
        columns: &[ColumnView<'_>],
    ) -> Result<Option<usize>, NoMemory> {
        self.rows += rows as u64;
        self.cells += filled_in(columns, rows);
        Ok(Some(rows))
    }

    fn write_lines(&self, into: &mut Vec<u8>) -> Result<(), NoMemory> {
        let (mut rows, mut cells) = (Buffer::new(), Buffer::new());
        push_line(
            &[
                b"count",
                rows.format(self.rows).as_bytes(),
                cells.format(self.cells).as_bytes(),
            ],
            into,
        )
    }
}
