//! Rows that have room in a table.
ghost use Rattle.std.specs.Prelude.{◌≡◌, ◌∷◌, [], IfOk};
ghost use Rattle.value_types.specs.declared.types.ColumnType.TheVariants.{Bigint};

use column_store::Table;
use csv_source::NoMemory;
use std::alloc::Global;
use value_types::{Cell, Cells, ColumnType, Types, Value};

/// A table of one column: 7, 7 and null, for which room is reserved.
fn three_rows(alloc: Global) -> Result<Table, NoMemory>
    ensures { IfOk result (λ table. table.types ≡ Bigint ∷ []) }
{
    let mut types = Types::new(alloc);
    types.push(ColumnType::Bigint)?;
    let mut table = Table::new(alloc, &types)?;
    table.reserve_rows(3)?;
    let mut row = Cells::new(alloc);
    row.push(Cell::Value(Value::Int(7)))?;
    table.push_reserved(&row);
    table.push_reserved(&row);
    row.clear();
    row.push(Cell::Null)?;
    table.push_reserved(&row);
    Ok(table)
}

/// Whether a table has so many rows of one column, of which the second is 7 and the last null.
fn has_rows(table: &Table, count: usize) -> bool {
    table.columns() == 1
        && table.rows() == count
        && count >= 2
        && matches!(table.cell_at(0, 1), Cell::Value(Value::Int(7)))
        && matches!(table.cell_at(0, count - 1), Cell::Null)
}

#[test]
fn rows_with_room_are_pushed_without_memory(rt: HostRuntime) -> Result<(), NoMemory> {
    assert!(rt; has_rows(&three_rows(rt.alloc())?, 3));
    Ok(())
}

#[test]
fn rows_are_pushed_and_appended(rt: HostRuntime) -> Result<(), NoMemory> {
    let mut table = three_rows(rt.alloc())?;
    let mut row = Cells::new(rt.alloc());
    row.push(Cell::Null)?;
    table.push_row(&row)?;
    let other = three_rows(rt.alloc())?;
    table.append(&other)?;
    assert!(rt; has_rows(&table, 7));
    Ok(())
}
