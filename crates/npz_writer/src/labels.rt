// The keys and the types of columns as a sheet.
ghost use Rattle.std.specs.Prelude.{◌≡◌, ◌<◌, ◌++◌, ◌∷◌, [], length, map, IfOk, OnOk};
ghost use Rattle.std.specs.List.{zip};
ghost use Rattle.npz_writer.specs.Labels.{label, label_columns, labels};

use crate::sheet::Sheet;
use column_store::Table;
use csv_source::NoMemory;
use std::alloc::Global;
use value_types::{Cell, Cells, ColumnType, Names, Types, type_name};

/// The keys and the types of columns.
pub(crate) fn columns_of(
    alloc: Global,
    columns: &[(&[u8], ColumnType)],
) -> Result<(Names, Types), NoMemory>
    ensures keys { IfOk result (λ made. made.0 ≡ map (λ column. column.0.now) columns.now) }
    ensures types { IfOk result (λ made. made.1 ≡ map (λ column. column.1) columns.now) }
{
    let mut keys = Names::new(alloc);
    let mut types = Types::new(alloc);
    for column in columns {
        keys.push(column.0)?;
        types.push(column.1)?;
    }
    Ok((keys, types))
}

/// Appends a column's key and its type's name as a row.
fn push_label(
    table: &mut Table,
    cells: &mut Cells,
    key: &[u8],
    ty: ColumnType,
) -> Result<(), NoMemory>
    requires { table.old.types ≡ map (λ column. column.1) label_columns }
    ensures types { OnOk result (table.new.types ≡ table.old.types) }
    ensures rows { OnOk result (table.new.rows ≡ table.old.rows ++ label (key.now, ty) ∷ []) }
{
    cells.clear();
    cells.push(Cell::Text(key))?;
    cells.push(Cell::Text(type_name(ty).as_bytes()))?;
    table.push_row(cells)
}

/// Appends the keys and types of columns.
fn push_labels(
    alloc: Global,
    table: &mut Table,
    keys: &Names,
    types: &Types,
) -> Result<(), NoMemory>
    requires columns { table.old.types ≡ map (λ column. column.1) label_columns }
    requires long { length keys.now ≡ length types.now }
    ensures types { OnOk result (table.new.types ≡ table.old.types) }
    ensures rows { OnOk result (table.new.rows ≡ table.old.rows ++ map label (zip keys.now types.now)) }
{
    let mut cells = Cells::new(alloc);
    for column in 0..types.len() {
        push_label(table, &mut cells, keys.get(column), types.get(column))?;
    }
    Ok(())
}

/// The sheet of the keys and types of columns.
pub(crate) fn labels(alloc: Global, keys: &Names, types: &Types) -> Result<Sheet, NoMemory>
    requires { length keys.now ≡ length types.now }
    ensures { IfOk result (λ sheet. sheet ≡ labels keys.now types.now) }
{
    let columns = [
        (b":names" as &[u8], ColumnType::Varchar),
        (b":types" as &[u8], ColumnType::Varchar),
    ];
    let (names, kinds) = columns_of(alloc, &columns)?;
    let mut table = Table::new(alloc, &kinds)?;
    push_labels(alloc, &mut table, keys, types)?;
    Ok(Sheet { keys: names, table })
}
