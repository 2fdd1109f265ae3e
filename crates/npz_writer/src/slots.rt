// The arrays of sheets, which workers measure.
ghost use Rattle.std.specs.Prelude.{◌≡◌, ◌<◌, ◌++◌, ◌∷◌, ℕ, [], length, map, slice_index_or, if◌then◌else◌, All, IfOk, OnOk};
ghost use Rattle.npz_writer.specs.Slots.{column_slots, sheet_at, sheet_slots, slot_of, slots_of, IsMeasured, IsReady, IsWithin};

use crate::array::Array;
use crate::columns::{has_null, has_texts, type_of};
use crate::measure::{Measure, measure_file};
use crate::part::Part;
use crate::sheet::Sheet;
use csv_source::NoMemory;
use std::alloc::Global;
use std::thread;
use std::thread::Threads;

/// One worker measures so many cells sooner than a thread is started.
const FEW_CELLS: usize = 65_536;

/// An array, and what is measured of its file.
#[derive(Clone, Copy)]
pub(crate) struct Slot {
    pub(crate) array: Array,
    pub(crate) measure: Option<Measure>,
}

/// An array of a column of a sheet that isn't measured yet.
fn slot_of(sheet: usize, column: usize, part: Part) -> Slot
    ensures { result ≡ slot_of sheet column part }
{
    Slot {
        array: Array {
            sheet,
            column,
            part,
        },
        measure: None,
    }
}

/// Appends an array where there is one.
fn push_if(slots: &mut Vec<Slot>, is_there: bool, slot: Slot) -> Result<(), NoMemory>
    ensures { OnOk result (slots.new.items ≡ slots.old.items ++ (if is_there then slot ∷ [] else [])) }
{
    if is_there {
        slots.push(slot)?;
    }
    Ok(())
}

/// Appends the arrays of a column.
fn push_column(
    slots: &mut Vec<Slot>,
    sheets: &[Sheet],
    sheet: usize,
    column: usize,
) -> Result<(), NoMemory>
    requires sheet { sheet < length sheets.now }
    requires column { column < length (sheet_at sheets.now sheet).types }
    ensures { OnOk result (slots.new.items ≡ slots.old.items ++ column_slots sheet (sheet_at sheets.now sheet) column) }
{
    let columns = &sheets[sheet];
    let table = &columns.table;
    slots.push(slot_of(sheet, column, Part::Values))?;
    let texts = has_texts(type_of(table, column));
    push_if(slots, texts, slot_of(sheet, column, Part::Ends))?;
    push_if(
        slots,
        has_null(table, column),
        slot_of(sheet, column, Part::Nulls),
    )
}

/// Appends the arrays of a sheet.
fn push_sheet(slots: &mut Vec<Slot>, sheets: &[Sheet], sheet: usize) -> Result<(), NoMemory>
    requires { sheet < length sheets.now }
    ensures { OnOk result (slots.new.items ≡ slots.old.items ++ sheet_slots sheets.now sheet) }
{
    let columns = &sheets[sheet];
    for column in 0..columns.table.columns() {
        push_column(slots, sheets, sheet, column)?;
    }
    Ok(())
}

/// The arrays of sheets, in order.
fn slots_of(alloc: Global, sheets: &[Sheet]) -> Result<Vec<Slot>, NoMemory>
    ensures { IfOk result (λ slots. slots.items ≡ slots_of sheets.now) }
{
    let mut slots = Vec::new(alloc);
    for sheet in 0..sheets.len() {
        push_sheet(&mut slots, sheets, sheet)?;
    }
    Ok(slots)
}

impl Slot {
    /// Measures the array.
    fn fill(&mut self, alloc: Global, sheets: &[Sheet])
        requires { IsWithin sheets.now self.old.array }
        ensures { IsMeasured sheets.now self.old self.new }
    {
        let Array {
            sheet,
            column,
            part,
        } = self.array;
        self.measure = measure_file(alloc, &sheets[sheet], column, part).ok();
    }
}

/// How many workers share the arrays of sheets.
fn workers_for(sheets: &[Sheet], arrays: usize, threads: u32) -> usize
    ensures { 0 < result }
{
    let mut cells: usize = 0;
    for sheet in sheets {
        let table = &sheet.table;
        cells = cells.saturating_add(table.rows().saturating_mul(table.columns()));
    }
    if cells <= FEW_CELLS {
        return 1;
    }
    arrays.clamp(1, (threads as usize).max(1))
}

/// Measures arrays, which at most so many workers share.
fn measure_all<R: Threads + Sync>(
    rt: &R,
    alloc: Global,
    sheets: &[Sheet],
    slots: &mut [Slot],
    threads: u32,
)
    requires { All (λ slot. IsWithin sheets.now slot.array) slots.old }
    ensures { (k : ℕ) (d : _) → k < length slots.old → IsMeasured sheets.now (slice_index_or slots.old k d) (slice_index_or slots.new k d) }
{
    let workers = workers_for(sheets, slots.len(), threads);
    thread::for_each_mut(
        rt,
        slots,
        workers,
        &|_, slot: &mut Slot|
            requires { IsWithin sheets.now slot.old.array }
            ensures { IsMeasured sheets.entry.now slot.old slot.new }
        { slot.fill(alloc, sheets) },
    );
}

/// The arrays of sheets, in order, which at most so many workers have measured. One whose measure is absent found no memory.
pub(crate) fn measured_slots<R: Threads + Sync>(
    rt: &R,
    alloc: Global,
    sheets: &[Sheet],
    threads: u32,
) -> Result<Vec<Slot>, NoMemory>
    ensures ready { IfOk result (λ slots. All (IsReady sheets.now) slots.items) }
    ensures arrays { IfOk result (λ slots. map (λ slot. slot.array) slots.items ≡ map (λ slot. slot.array) (slots_of sheets.now)) }
{
    let mut slots = slots_of(alloc, sheets)?;
    measure_all(rt, alloc, sheets, &mut slots, threads);
    Ok(slots)
}
