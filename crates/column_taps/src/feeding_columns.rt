// Rows that stand in columns, for the taps that go on.
ghost use Rattle.std.specs.Prelude.{◌≡◌, ◌<◌, ◌+◌, ◌^◌, length, map, All};
ghost use Rattle.value_types.specs.Views.{view_rows, HasRows};
ghost use Rattle.column_taps.specs.Shown.{MayGoOn};
ghost use Rattle.column_taps.specs.Slots.{course_in, FedSlotAs, FedRowsAs};

use crate::showing::show_rows;
use crate::{RowTap, Slot};
use csv_source::NoMemory;
use value_types::{Cells, ColumnView};

/// Shows rows to a slot's tap, which is dropped where it is over.
fn feed_slot_columns(
    slot: &mut Slot,
    number: u64,
    rows: usize,
    columns: &[ColumnView<'_>],
    cells: &mut Cells,
) -> Result<(), NoMemory>
    requires long { All (HasRows rows) columns.now }
    requires wide { length columns.now < 2 ^ 62 }
    requires numbers { number + rows < 2 ^ 64 }
    requires room { MayGoOn rows (length columns.now) (course_in (λ v x. (⟦<dyn RowTap as RowTap>⟧ v).seen x) slot.old) }
    ensures { let course = course_in (λ v x. (⟦<dyn RowTap as RowTap>⟧ v).seen x) in
        FedSlotAs number (view_rows columns.now rows) (course slot.old) result (course slot.new) }
{
    let Slot::Live(tap) = slot else {
        return Ok(());
    };
    let taken = match show_rows(tap, rows, columns, cells) {
        Ok(taken) => taken,
        Err(error) => return Err(error),
    };
    if taken < rows {
        *slot = Slot::Over(number + taken as u64);
    }
    Ok(())
}

/// Shows the first rows of columns, numbered from a number on, to each tap that goes on: as if by `feed` one after
/// another. The cells are scratch. After `NoMemory` the slots before that of the refusing tap have taken the rows, and
/// it has taken some first ones.
pub fn feed_columns(
    slots: &mut [Slot],
    number: u64,
    rows: usize,
    columns: &[ColumnView<'_>],
    cells: &mut Cells,
) -> Result<(), NoMemory>
    requires long { All (HasRows rows) columns.now }
    requires wide { length columns.now < 2 ^ 62 }
    requires numbers { number + rows < 2 ^ 64 }
    requires room { All (MayGoOn rows (length columns.now)) (map (course_in (λ v x. (⟦<dyn RowTap as RowTap>⟧ v).seen x)) slots.old) }
    ensures { let courses = map (course_in (λ v x. (⟦<dyn RowTap as RowTap>⟧ v).seen x)) in
        FedRowsAs number (view_rows columns.now rows) (courses slots.old) result (courses slots.new) }
{
    for slot in slots.iter_mut() {
        if let Err(error) = feed_slot_columns(slot, number, rows, columns, cells) {
            return Err(error);
        }
    }
    Ok(())
}
