//! Rows that are shown to taps one by one.
ghost use Rattle.std.specs.Prelude.{◌≡◌, ◌<◌, ◌^◌, length, map, All, IfOk, OnOk};
ghost use Rattle.column_taps.specs.Seen.{IsFresh};
ghost use Rattle.column_taps.specs.Shown.{MayGoOn};
ghost use Rattle.column_taps.specs.Slots.{course_in};

use column_taps::{CountTap, DistinctTap, RowTap, Slot, SpanTap, WidthTap, feed, write_slots};
use csv_source::NoMemory;
use std::alloc::Global;
use value_types::{Cell, Cells, Value};

/// A number and a text, either of which may be null.
struct Row(Option<i64>, Option<&'static str>);

const ROWS: [Row; 6] = [
    Row(Some(7), Some("ab")),
    Row(None, Some("c")),
    Row(Some(-3), None),
    Row(Some(12), Some("ab")),
    Row(None, Some("long")),
    Row(Some(1), Some("")),
];

/// Puts a tap behind others. Each has room for the rows.
fn hand_in(slots: &mut Vec<Slot>, tap: Box<dyn RowTap>) -> Result<(), NoMemory>
    requires fresh { IsFresh (seen tap) }
    requires room { All (MayGoOn 6 2) (map (course_in (λ v x. (⟦<dyn RowTap as RowTap>⟧ v).seen x)) slots.old.items) }
    ensures { OnOk result (All (MayGoOn 6 2) (map (course_in (λ v x. (⟦<dyn RowTap as RowTap>⟧ v).seen x)) slots.new.items)) }
{
    slots.push(Slot::Live(tap))?;
    Ok(())
}

/// A tap of each kind, of which one keeps so many different texts.
fn four_taps(alloc: Global, most: u64) -> Result<Vec<Slot>, NoMemory>
    ensures { IfOk result (λ slots. All (MayGoOn 6 2) (map (course_in (λ v x. (⟦<dyn RowTap as RowTap>⟧ v).seen x)) slots.items)) }
{
    let mut slots = Vec::new(alloc);
    hand_in(&mut slots, Box::new(alloc, CountTap::new())?)?;
    hand_in(&mut slots, Box::new(alloc, DistinctTap::new(alloc, most))?)?;
    hand_in(&mut slots, Box::new(alloc, SpanTap::new(alloc))?)?;
    hand_in(&mut slots, Box::new(alloc, WidthTap::new(alloc))?)?;
    Ok(slots)
}

/// Makes the cells those of a row.
fn fill(cells: &mut Cells, row: &Row) -> Result<(), NoMemory>
    ensures { OnOk result (length cells.new ≡ 2) }
{
    cells.clear();
    cells.push(match row.0 {
        Some(number) => Cell::Value(Value::Int(number)),
        None => Cell::Null,
    })?;
    cells.push(match row.1 {
        Some(text) => Cell::Text(text.as_bytes()),
        None => Cell::Null,
    })?;
    Ok(())
}

/// Shows the rows one by one, numbered from 1.
fn show(alloc: Global, slots: &mut [Slot], rows: &[Row]) -> Result<(), NoMemory>
    requires few { length rows.now < 2 ^ 32 }
    requires room { All (MayGoOn (length rows.now) 2) (map (course_in (λ v x. (⟦<dyn RowTap as RowTap>⟧ v).seen x)) slots.old) }
{
    let mut cells = Cells::new(alloc);
    let mut number = 0;
    for row in rows {
        number += 1;
        fill(&mut cells, row)?;
        feed(slots, number, &cells)?;
    }
    Ok(())
}

/// What taps of each kind tell of the rows.
fn told(alloc: Global, most: u64) -> Result<Vec<u8>, NoMemory> {
    let mut slots = four_taps(alloc, most)?;
    show(alloc, &mut slots, &ROWS)?;
    let mut text = Vec::new(alloc);
    write_slots(&slots, &mut text)?;
    Ok(text)
}

#[test]
fn each_tap_takes_each_row(rt: HostRuntime) -> Result<(), NoMemory> {
    let text = told(rt.alloc(), 4)?;
    let want: &[u8] = b"tap|count|6|9\ntap|distinct|4\ntap|span|0|-3|12\ntap|width|1|4\n";
    assert!(rt; text.as_slice() == want);
    Ok(())
}

#[test]
fn a_tap_over_its_bound_leaves_the_rows_to_the_others(rt: HostRuntime) -> Result<(), NoMemory> {
    let text = told(rt.alloc(), 2)?;
    let want: &[u8] = b"tap|count|6|9\ntap|over|5\ntap|span|0|-3|12\ntap|width|1|4\n";
    assert!(rt; text.as_slice() == want);
    Ok(())
}
