//! The chunks that tables bring where they are taken in: few rows share one, and no rows bring none.
ghost use Rattle.std.specs.Prelude.{◌≡◌, ◌∷◌, [], IfOk};
ghost use Rattle.value_types.specs.declared.types.ColumnType.TheVariants.{Bigint};

use column_store::Table;
use csv_source::NoMemory;
use std::alloc::Global;
use value_types::{Cell, Cells, ColumnType, Types};

/// A table of one column of so many nulls.
fn nulls(alloc: Global, rows: usize) -> Result<Table, NoMemory>
    ensures { IfOk result (λ table. table.types ≡ Bigint ∷ []) }
{
    let mut types = Types::new(alloc);
    types.push(ColumnType::Bigint)?;
    let mut table = Table::new(alloc, &types)?;
    let mut row = Cells::new(alloc);
    row.push(Cell::Null)?;
    for _ in 0..rows {
        table.push_row(&row)?;
    }
    Ok(table)
}

/// Takes in a table of each of these counts of rows.
fn take_counts(alloc: Global, table: &mut Table, counts: &[usize]) -> Result<(), NoMemory>
    requires { table.old.types ≡ Bigint ∷ [] }
{
    for count in counts {
        table.take_in(nulls(alloc, *count)?)?;
    }
    Ok(())
}

/// Whether these are how many rows each chunk has.
fn has_chunks(table: &Table, counts: &[usize]) -> bool {
    let (earlier, last) = table.chunks();
    for (place, chunk) in earlier.iter().enumerate() {
        if place >= counts.len() || chunk.rows() != counts[place] {
            return false;
        }
    }
    counts.len() > earlier.len()
        && counts.len() - earlier.len() == 1
        && last.rows() == counts[earlier.len()]
}

/// How many rows the tables have that are taken in, and how many the chunks that they come to.
struct Taken(&'static [usize], &'static [usize]);

const TAKEN: [Taken; 11] = [
    Taken(&[], &[0]),
    Taken(&[0, 0], &[0]),
    Taken(&[3], &[3]),
    Taken(&[0, 3, 0], &[3]),
    Taken(&[3, 4, 5], &[12]),
    Taken(&[60, 4], &[64]),
    Taken(&[60, 5], &[60, 5]),
    Taken(&[1, 64], &[1, 64]),
    Taken(&[65, 1, 0, 2], &[65, 3]),
    Taken(&[60, 5, 7, 52, 1], &[60, 64, 1]),
    Taken(&[100, 100], &[100, 100]),
];

#[test]
fn few_rows_share_a_chunk_and_no_rows_bring_none(rt: HostRuntime) -> Result<(), NoMemory> {
    for case in &TAKEN {
        let mut table = nulls(rt.alloc(), 0)?;
        take_counts(rt.alloc(), &mut table, case.0)?;
        assert!(rt; has_chunks(&table, case.1));
    }
    Ok(())
}
