// A table's chunks, seen by their columns.
ghost use Rattle.std.specs.Prelude.{◌≡◌, length, All, IfOk};
ghost use Rattle.column_profile.specs.Parts.{part_rows, rows_of, IsPart};

use column_store::{Chunk, Table};
use csv_source::NoMemory;
use std::alloc::Global;
use value_types::ColumnView;

/// So many rows in columns.
#[derive(Drop)]
pub(crate) struct Part<'a> {
    pub(crate) rows: usize,
    pub(crate) views: Vec<ColumnView<'a>>,
}

fn part_of(alloc: Global, chunk: &Chunk) -> Result<Part<'_>, NoMemory>
    ensures part { IfOk result (IsPart (length chunk.now.types)) }
    ensures rows { IfOk result (λ part. part_rows part ≡ chunk.now.rows) }
{
    Ok(Part {
        rows: chunk.rows(),
        views: chunk.views(alloc)?,
    })
}

/// The parts of a table, in order.
pub(crate) fn parts_of(alloc: Global, table: &Table) -> Result<Vec<Part<'_>>, NoMemory>
    ensures parts { IfOk result (λ parts. All (IsPart (length table.now.types)) parts.items) }
    ensures rows { IfOk result (λ parts. rows_of parts.items ≡ table.now.rows) }
{
    let (earlier, last) = table.chunks();
    let mut parts = Vec::new(alloc);
    for chunk in earlier {
        parts.push(part_of(alloc, chunk)?)?;
    }
    parts.push(part_of(alloc, last)?)?;
    Ok(parts)
}
