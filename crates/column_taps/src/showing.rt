// Rows that stand in columns, shown one after another.
ghost use Rattle.std.specs.Prelude.{◌≡◌, ◌<◌, ◌+◌, ◌≤◌, ◌^◌, length, map, All, OnOk};
ghost use Rattle.value_types.specs.Views.{view_cells, view_rows, row_at, HasRows};
ghost use Rattle.column_taps.specs.Seen.{HasRoom};
ghost use Rattle.column_taps.specs.Taken.{TakenAs};
ghost use Rattle.column_taps.specs.Shown.{ShownEachAs, HasRoomForRows};

use crate::{RowTap, Tapped};
use csv_source::NoMemory;
use value_types::{Cells, ColumnView};

/// Puts the cells of a row, counted from 0, in the place of others.
fn fill_row(cells: &mut Cells, columns: &[ColumnView<'_>], row: usize) -> Result<(), NoMemory>
    requires { All (HasRows (row + 1)) columns.now }
    ensures ok { OnOk result (cells.new ≡ row_at (map view_cells columns.now) row) }
{
    cells.clear();
    for column in columns {
        cells.push(column.get(row))?;
    }
    Ok(())
}

/// Shows a row to a tap.
fn show_to(tap: &mut Box<dyn RowTap>, row: &Cells) -> Result<Tapped, NoMemory>
    requires within { length row.now < 2 ^ 62 }
    requires room { HasRoom (seen tap.old) }
    ensures { TakenAs (seen tap.old) row.now result (seen tap.new) }
{
    tap.take(row)
}

/// Shows the first rows of columns to a tap one after another, by `take`. The cells are its scratch.
fn show_each(
    tap: &mut Box<dyn RowTap>,
    rows: usize,
    columns: &[ColumnView<'_>],
    cells: &mut Cells,
) -> Result<usize, NoMemory>
    requires long { All (HasRows rows) columns.now }
    requires wide { length columns.now < 2 ^ 62 }
    requires room { HasRoomForRows rows (length columns.now) (seen tap.old) }
    ensures { ShownEachAs (seen tap.old) (view_rows columns.now rows) result (seen tap.new) }
{
    for row in 0..rows {
        if let Err(error) = fill_row(cells, columns, row) {
            return Err(error);
        }
        match show_to(tap, cells) {
            Ok(Tapped::Goes) => {}
            Ok(Tapped::Over) => return Ok(row),
            Err(error) => return Err(error),
        }
    }
    Ok(rows)
}

/// Shows the first rows of columns to a tap, at once where it takes them so. The cells are its scratch.
pub(crate) fn show_rows(
    tap: &mut Box<dyn RowTap>,
    rows: usize,
    columns: &[ColumnView<'_>],
    cells: &mut Cells,
) -> Result<usize, NoMemory>
    requires long { All (HasRows rows) columns.now }
    requires wide { length columns.now < 2 ^ 62 }
    requires room { HasRoomForRows rows (length columns.now) (seen tap.old) }
    ensures { ShownEachAs (seen tap.old) (view_rows columns.now rows) result (seen tap.new) }
{
    match tap.take_columns(rows, columns) {
        Ok(Some(count)) => Ok(count),
        Ok(None) => show_each(tap, rows, columns, cells),
        Err(error) => Err(error),
    }
}
