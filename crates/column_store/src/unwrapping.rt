// What cells hold.
ghost use Rattle.std.specs.Prelude.{◌≡◌, IsTrue};
ghost use Rattle.std.specs.Option.{option_copied};
ghost use Rattle.value_types.specs.declared.types.ColumnType.TheVariants as types;
ghost use Rattle.value_types.specs.declared.types.Value.TheVariants as values;
ghost use Rattle.value_types.specs.Datum.{datum_of, text as text_datum, typed};
ghost use Rattle.value_types.specs.OfType.{fits};
ghost use Rattle.column_store.specs.Nullable.{datum_by};

use value_types::{Cell, Value};

/// The truth value in a cell, none where it is null.
pub(crate) fn boolean_in(cell: Cell<'_>) -> Option<bool>
    requires { IsTrue (fits types.Boolean (datum_of cell)) }
    ensures { datum_by (λ v. typed (values.Bool v)) result ≡ datum_of cell.entry }
{
    match cell {
        Cell::Value(Value::Bool(truth)) => Some(truth),
        _ => None,
    }
}

/// The number in a cell, none where it is null.
pub(crate) fn number_in(cell: Cell<'_>) -> Option<i64>
    requires { IsTrue (fits types.Bigint (datum_of cell)) }
    ensures { datum_by (λ v. typed (values.Int v)) result ≡ datum_of cell.entry }
{
    match cell {
        Cell::Value(Value::Int(number)) => Some(number),
        _ => None,
    }
}

/// The day in a cell, none where it is null.
pub(crate) fn date_in(cell: Cell<'_>) -> Option<i32>
    requires { IsTrue (fits types.Date (datum_of cell)) }
    ensures { datum_by (λ v. typed (values.Date v)) result ≡ datum_of cell.entry }
{
    match cell {
        Cell::Value(Value::Date(day)) => Some(day),
        _ => None,
    }
}

/// The time in a cell, none where it is null.
pub(crate) fn time_in(cell: Cell<'_>) -> Option<i64>
    requires { IsTrue (fits types.Time (datum_of cell)) }
    ensures { datum_by (λ v. typed (values.Time v)) result ≡ datum_of cell.entry }
{
    match cell {
        Cell::Value(Value::Time(micros)) => Some(micros),
        _ => None,
    }
}

/// The stamp in a cell, none where it is null.
pub(crate) fn stamp_in(cell: Cell<'_>) -> Option<i64>
    requires { IsTrue (fits types.Timestamp (datum_of cell)) }
    ensures { datum_by (λ v. typed (values.Stamp v)) result ≡ datum_of cell.entry }
{
    match cell {
        Cell::Value(Value::Stamp(micros)) => Some(micros),
        _ => None,
    }
}

/// The text in a cell, none where it is null.
pub(crate) fn text_in(cell: Cell<'_>) -> Option<&[u8]>
    requires { IsTrue (fits types.Varchar (datum_of cell)) }
    ensures { datum_by text_datum (option_copied result) ≡ datum_of cell.entry }
{
    match cell {
        Cell::Text(text) => Some(text),
        _ => None,
    }
}
