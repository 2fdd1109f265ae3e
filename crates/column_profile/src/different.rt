// Different values of a column.
ghost use Rattle.std.specs.Prelude.{◌≡◌, nat_le, take, if◌then◌else◌, Some, None, IfOk, OnOk};
ghost use Rattle.std.specs.List.{fold};
ghost use Rattle.value_types.specs.Datum.{datum_of, text, typed};
ghost use Rattle.value_types.specs.Views.{view_cells, HasRows};
ghost use Rattle.column_profile.specs.Folded.{kept_with};
ghost use Rattle.column_profile.specs.Kept.{kept_apart, value_of};
ghost use Rattle.column_profile.specs.Tally.{apart_count, apart_with, nothing_apart};

use crate::limits::MOST_DIFFERENT;
use csv_source::NoMemory;
use indexmap::IndexSet;
use std::alloc::Global;
use value_types::{Cell, ColumnView, Value};

/// A value that is looked up.
#[derive(Clone, Copy, PartialEq, Eq, Hash)]
pub(crate) enum Key {
    Truth(bool),
    Number(i64),
    Day(i32),
    Time(i64),
    Stamp(i64),
}

/// Different values and different texts, in order of first coming.
#[derive(Drop)]
pub(crate) struct Different {
    alloc: Global,
    values: IndexSet<Key>,
    texts: IndexSet<Vec<u8>>,
}

/// The key that stands for a value.
#[inline(always)]
fn key_of(value: Value) -> Key
    ensures { value_of result ≡ value }
{
    match value {
        Value::Bool(truth) => Key::Truth(truth),
        Value::Int(number) => Key::Number(number),
        Value::Date(day) => Key::Day(day),
        Value::Time(micros) => Key::Time(micros),
        Value::Stamp(stamp) => Key::Stamp(stamp),
    }
}

impl Different {
    pub(crate) fn new(alloc: Global) -> Different
        ensures { kept_apart result ≡ nothing_apart }
    {
        Different {
            alloc,
            values: IndexSet::new(alloc),
            texts: IndexSet::new(alloc),
        }
    }

    /// How many values and texts there are.
    #[inline(always)]
    pub(crate) fn count(&self) -> usize
        ensures { result ≡ apart_count (kept_apart self.now) }
    {
        self.values.len() + self.texts.len()
    }

    /// Whether they are not too many.
    #[inline(always)]
    fn are_within(&self) -> bool
        ensures { result ≡ nat_le (apart_count (kept_apart self.now)) MOST_DIFFERENT }
    {
        self.count() <= MOST_DIFFERENT
    }

    /// Adds a value, unless it is there.
    #[inline(always)]
    fn add_value(&mut self, value: Value) -> Result<(), NoMemory>
        ensures { OnOk result (kept_apart self.new ≡ apart_with (kept_apart self.old) (typed value)) }
    {
        let key = key_of(value);
        if self.values.contains(&key) {
            return Ok(());
        }
        self.values.insert(key)?;
        Ok(())
    }

    /// Adds a text, unless it is there. Its bytes are copied only then.
    #[inline(always)]
    fn add_text(&mut self, bytes: &[u8]) -> Result<(), NoMemory>
        ensures { OnOk result (kept_apart self.new ≡ apart_with (kept_apart self.old) (text bytes.now)) }
    {
        if self.texts.contains(bytes) {
            return Ok(());
        }
        let copy = bytes.to_vec(self.alloc)?;
        self.texts.insert(copy)?;
        Ok(())
    }

    /// Adds a cell, which is nothing where it is null.
    #[inline(always)]
    fn add(&mut self, cell: Cell<'_>) -> Result<(), NoMemory>
        ensures { OnOk result (kept_apart self.new ≡ apart_with (kept_apart self.old) (datum_of cell.entry)) }
    {
        match cell {
            Cell::Null => Ok(()),
            Cell::Value(value) => self.add_value(value),
            Cell::Text(bytes) => self.add_text(bytes),
        }
    }

    /// Adds the first cells of a column, up to one with which there are too many. It answers whether there are not.
    pub(crate) fn add_cells(
        &mut self,
        column: &ColumnView<'_>,
        rows: usize,
    ) -> Result<bool, NoMemory>
        requires { HasRows rows column.now }
        ensures { IfOk result (λ within. fold kept_with (Some (kept_apart self.old)) (take rows (view_cells column.now)) ≡ (if within then Some (kept_apart self.new) else None)) }
    {
        for row in 0..rows {
            self.add(column.get(row))?;
            if !self.are_within() {
                return Ok(false);
            }
        }
        Ok(true)
    }
}
