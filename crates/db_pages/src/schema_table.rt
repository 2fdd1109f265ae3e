// The list of tables.
ghost use Rattle.std.specs.Prelude.{◌≡◌, map, IfOk};
ghost use Rattle.db_records.specs.Record.{record_bytes};
ghost use Rattle.db_pages.specs.Grown.{tree_of};
ghost use Rattle.db_pages.specs.Image.{list_row};

use crate::leaves::Leaves;
use crate::number::number_of;
use crate::table_pages::TablePages;
use crate::tree::Tree;
use csv_source::NoMemory;
use db_records::{push_integer, push_record, push_text};
use std::alloc::Global;
use text_pieces::Draft;

/// The record of a table in the list: its kind, its name twice, the number of its root and its definition.
pub(crate) fn list_row(
    alloc: Global,
    name: &[u8],
    sql: &[u8],
    root: u64,
) -> Result<Vec<u8>, NoMemory>
    ensures { IfOk result (λ row. row.items ≡ record_bytes (list_row name.now sql.now root)) }
{
    let mut types = Draft::new(alloc);
    let mut body = Draft::new(alloc);
    push_text(&mut types, &mut body, b"table")?;
    push_text(&mut types, &mut body, name)?;
    push_text(&mut types, &mut body, name)?;
    push_integer(&mut types, &mut body, i64::from(number_of(root)?))?;
    push_text(&mut types, &mut body, sql)?;
    let mut row = Draft::new(alloc);
    push_record(&mut row, &types, &body)?;
    Ok(row.into_text())
}

/// The tree of the list, behind so many pages.
pub(crate) fn list_tree(alloc: Global, base: u64, rows: &[Vec<u8>]) -> Result<Tree, NoMemory>
    ensures { IfOk result (λ tree. tree ≡ tree_of base (map (λ row. row.items) rows.now)) }
{
    let mut leaves = Leaves::new(alloc, base);
    let mut rowid: u64 = 1;
    for row in rows {
        leaves.push(rowid, row)?;
        rowid = rowid.checked_add(1).ok_or(NoMemory)?;
    }
    TablePages::of(alloc, leaves)?.finish()
}
