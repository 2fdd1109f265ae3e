// The rows of a table, shown to taps.
ghost use Rattle.std.specs.Prelude.{◌≡◌, ◌⊎◌, ◌<◌, ◌≤◌, ◌+◌, ◌*◌, ◌^◌, length, map, true, All, IfOk, OnOk, IsTrue, IsFalse};
ghost use Rattle.value_types.specs.OfType.{fit_all};
ghost use Rattle.column_taps.specs.Course.{going, course_after};
ghost use Rattle.column_taps.specs.Seen.{IsFresh};
ghost use Rattle.column_taps.specs.Shown.{MayGoOn};
ghost use Rattle.column_taps.specs.Slots.{course_in};
ghost use Rattle.loader_reply.specs.Showing.{tap_lines, AreNew};

use column_store::{Chunk, Table};
use column_taps::{RowTap, Slot, feed_columns, write_slots};
use csv_source::NoMemory;
use std::alloc::Global;
use value_types::Cells;

// The most cells that taps count.
const MOST_CELLS: u64 = (1 << 62) - 1;

/// Whether taps can count the rows and the cells of a table.
fn is_countable(table: &Table) -> bool
    ensures within { IsTrue result → (length table.now.rows < 2 ^ 62) × (length table.now.types < 2 ^ 62)
        × (length table.now.rows * length table.now.types < 2 ^ 62) }
    ensures over { IsFalse result → (2 ^ 62 ≤ length table.now.rows) ⊎ (2 ^ 62 ≤ length table.now.types)
        ⊎ (2 ^ 62 ≤ length table.now.rows * length table.now.types) }
{
    let (rows, columns) = (table.rows() as u64, table.columns() as u64);
    rows <= MOST_CELLS && columns <= MOST_CELLS && (columns == 0 || rows <= MOST_CELLS / columns)
}

/// Shows the rows of a chunk, numbered from a number on, to each tap that goes on.
fn show_chunk(
    alloc: Global,
    slots: &mut [Slot],
    number: u64,
    chunk: &Chunk,
    cells: &mut Cells,
) -> Result<(), NoMemory>
    requires wide { length chunk.now.types < 2 ^ 62 }
    requires numbers { number + length chunk.now.rows < 2 ^ 64 }
    requires room { All (MayGoOn (length chunk.now.rows) (length chunk.now.types)) (map (course_in (λ v x. (⟦<dyn RowTap as RowTap>⟧ v).seen x)) slots.old) }
    ensures ok { let courses = map (course_in (λ v x. (⟦<dyn RowTap as RowTap>⟧ v).seen x)) in
        OnOk result (courses slots.new ≡ map (λ c. course_after number c chunk.now.rows) (courses slots.old)) }
{
    // By columns, since the program's own taps need no rows of cells.
    let views = chunk.views(alloc)?;
    feed_columns(slots, number, chunk.rows(), &views, cells)?;
    Ok(())
}

/// Shows the rows of a table to each tap.
fn show_rows(
    alloc: Global,
    slots: &mut [Slot],
    table: &Table,
    cells: &mut Cells,
) -> Result<(), NoMemory>
    requires fits { All (λ cells. fit_all table.now.types cells ≡ true) table.now.rows }
    requires new { AreNew (λ v x. (⟦<dyn RowTap as RowTap>⟧ v).seen x) slots.old }
    ensures ok { let courses = map (course_in (λ v x. (⟦<dyn RowTap as RowTap>⟧ v).seen x)) in
        OnOk result (courses slots.new ≡ map (λ c. course_after 1 c table.now.rows) (courses slots.old)) }
{
    // No memory holds a table of that size.
    if !is_countable(table) {
        return Err(NoMemory);
    }
    let mut number = 1;
    let (earlier, last) = table.chunks();
    for chunk in earlier {
        show_chunk(alloc, slots, number, chunk, cells)?;
        number += chunk.rows() as u64;
    }
    show_chunk(alloc, slots, number, last, cells)?;
    Ok(())
}

/// A slot for each tap.
fn slots_of(alloc: Global, taps: Vec<Box<dyn RowTap>>) -> Result<Vec<Slot>, NoMemory>
    ensures ok { IfOk result (λ slots. map (course_in (λ v x. (⟦<dyn RowTap as RowTap>⟧ v).seen x)) slots.items ≡ map (λ tap. going (seen tap)) taps.items) }
{
    let mut slots = Vec::with_capacity(alloc, taps.len())?;
    for tap in taps {
        slots.push(Slot::Live(tap))?;
    }
    Ok(slots)
}

/// The lines of taps, which are shown the rows of a table.
pub fn tap_lines(
    alloc: Global,
    table: &Table,
    taps: Vec<Box<dyn RowTap>>,
) -> Result<Vec<u8>, NoMemory>
    requires fits { All (λ cells. fit_all table.now.types cells ≡ true) table.now.rows }
    requires fresh { All IsFresh (map seen taps.items) }
    ensures ok { IfOk result (λ lines. lines.items ≡ tap_lines (map seen taps.items) table.now.rows) }
{
    let mut slots = slots_of(alloc, taps)?;
    let mut cells = Cells::new(alloc);
    let shown = show_rows(alloc, &mut slots, table, &mut cells);
    // As one value, as in `Ending::of`.
    drop(cells);
    shown?;
    let mut lines = Vec::new(alloc);
    write_slots(&slots, &mut lines)?;
    Ok(lines)
}
