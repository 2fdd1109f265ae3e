// All columns of a chunk at once.
ghost use Rattle.std.specs.Prelude.{◌≡◌, ◌≤◌, ◌<◌, ◌+◌, ◌++◌, ℕ, [], length, map, All, IfOk, OnErr, OnOk};
ghost use Rattle.std.specs.List.{slice_index_or};
ghost use Rattle.column_store.specs.declared.column.Column.{Column};
ghost use Rattle.column_store.specs.ColumnCells.{cells_of, type_of};
ghost use Rattle.column_store.specs.ColumnChanges.{EachColumn, HasCells, IsAppended, IsCut, IsReserved, KeepsCells, KeepsFront};

use crate::column::Column;
use csv_source::NoMemory;
use std::alloc::Global;
use value_types::Types;

/// Empty columns of these types.
pub(crate) fn empty_columns(alloc: Global, types: &Types) -> Result<Vec<Column>, NoMemory>
    ensures types { IfOk result (λ columns. map type_of columns.items ≡ types.now) }
    ensures cells { IfOk result (λ columns. All (λ column. cells_of column ≡ []) columns.items) }
{
    let mut columns = Vec::with_capacity(alloc, types.len())?;
    for ty in types.as_slice() {
        columns.push(Column::new(alloc, *ty))?;
    }
    Ok(columns)
}

/// Keeps the first cells of each column alone.
pub(crate) fn cut(columns: &mut [Column], rows: usize)
    ensures { EachColumn (λ _. IsCut rows) columns.old columns.new }
{
    for place in 0..columns.len() {
        columns[place].truncate(rows);
    }
}

/// Keeps the first cells of each column alone, where only the first columns have more.
pub(crate) fn cut_first(columns: &mut [Column], longer: usize, rows: usize)
    requires within { longer ≤ length columns.old }
    requires short { (number : ℕ) (other : Column) → longer ≤ number → number < length columns.old → length (cells_of (slice_index_or columns.old number other)) ≤ rows }
    ensures { EachColumn (λ _. IsCut rows) columns.old columns.new }
{
    for place in 0..longer {
        columns[place].truncate(rows);
    }
}

/// Takes the extent of each BIGINT column, and where `many` keeps its numbers in as few bytes as they need.
pub(crate) fn pack(columns: &mut [Column], alloc: Global, many: bool)
    ensures { EachColumn (λ _. HasCells) columns.old columns.new }
{
    for place in 0..columns.len() {
        columns[place].pack(alloc, many);
    }
}

/// Makes room for more cells in each column.
pub(crate) fn reserve(columns: &mut [Column], more: usize) -> Result<(), NoMemory>
    ensures same { EachColumn (λ _. KeepsCells) columns.old columns.new }
    ensures ok { OnOk result (EachColumn (λ _. IsReserved more) columns.old columns.new) }
{
    for place in 0..columns.len() {
        columns[place].reserve(more)?;
    }
    Ok(())
}

/// Appends to each column the cells of its twin, or to the first ones alone.
fn append_some(columns: &mut [Column], others: &[Column]) -> Result<(), NoMemory>
    requires { map type_of columns.old ≡ map type_of others.now }
    ensures front { EachColumn (λ _. KeepsFront) columns.old columns.new }
    ensures ok { OnOk result (EachColumn (IsAppended others.now) columns.old columns.new) }
{
    for place in 0..columns.len() {
        columns[place].append(&others[place])?;
    }
    Ok(())
}

/// Appends to each column, of so many cells, the cells of its twin.
pub(crate) fn append(columns: &mut [Column], others: &[Column], rows: usize) -> Result<(), NoMemory>
    requires types { map type_of columns.old ≡ map type_of others.now }
    requires full { All (λ column. length (cells_of column) ≡ rows) columns.old }
    ensures ok { OnOk result (EachColumn (IsAppended others.now) columns.old columns.new) }
    ensures err { OnErr result (EachColumn (λ _. KeepsCells) columns.old columns.new) }
{
    match append_some(columns, others) {
        Ok(()) => Ok(()),
        Err(stop) => {
            cut(columns, rows);
            Err(stop)
        }
    }
}
