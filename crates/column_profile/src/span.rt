// The least and the greatest value of a column.
ghost use Rattle.std.specs.Prelude.{◌≡◌, ◌≤◌, ◌<◌, length, slice_get, take, if◌then◌else◌, Some};
ghost use Rattle.std.specs.List.{fold};
ghost use Rattle.value_types.specs.declared.types.Value.TheVariants as values;
ghost use Rattle.value_types.specs.Datum.{null, typed};
ghost use Rattle.value_types.specs.Marked.{marked};
ghost use Rattle.value_types.specs.Views.{view_cells, HasRows};
ghost use Rattle.column_profile.specs.Folded.{joined, span_by};
ghost use Rattle.column_profile.specs.Tally.{spanned, span_with};
ghost use Rattle.column_profile.specs.Values.{greater, lesser, number_of};

use value_types::{ColumnView, Extent, Value, extent_of, is_marked};

/// The least and the greatest of some values.
#[derive(Clone, Copy)]
pub(crate) struct Span {
    pub(crate) least: Value,
    pub(crate) greatest: Value,
}

/// The number by which a value stands among those of its type.
#[inline(always)]
fn number_of(value: Value) -> i64
    ensures { result ≡ number_of value }
{
    match value {
        Value::Bool(truth) => { if truth { 1 } else { 0 } }
        Value::Int(number) => number,
        Value::Date(day) => i64::from(day),
        Value::Time(micros) => micros,
        Value::Stamp(stamp) => stamp,
    }
}

#[inline(always)]
fn lesser(least: Value, value: Value) -> Value
    ensures { result ≡ lesser least value }
{
    if number_of(value) < number_of(least) {
        return value;
    }
    least
}

#[inline(always)]
fn greater(greatest: Value, value: Value) -> Value
    ensures { result ≡ greater greatest value }
{
    if number_of(greatest) < number_of(value) {
        return value;
    }
    greatest
}

/// The span of the values of two, of which the first comes before.
#[inline(always)]
fn joined(span: Option<Span>, other: Option<Span>) -> Option<Span>
    ensures { result ≡ joined span other }
{
    let Some(span) = span else {
        return other;
    };
    let Some(other) = other else {
        return Some(span);
    };
    Some(Span {
        least: lesser(span.least, other.least),
        greatest: greater(span.greatest, other.greatest),
    })
}

/// A span with a value, unless it is null.
#[inline(always)]
fn with_value(span: Option<Span>, is_null: bool, value: Value) -> Option<Span>
    ensures { result ≡ span_with span (if is_null then null else typed value) }
{
    if is_null {
        return span;
    }
    joined(
        span,
        Some(Span {
            least: value,
            greatest: value,
        }),
    )
}

fn truth_at(truths: &[bool], row: usize) -> bool
    requires { row < length truths.now }
    ensures { slice_get truths.now row ≡ Some result }
{
    truths[row]
}

fn day_at(days: &[i32], row: usize) -> i32
    requires { row < length days.now }
    ensures { slice_get days.now row ≡ Some result }
{
    days[row]
}

/// A span with the first truths of a column that aren't null.
fn with_truths(span: Option<Span>, rows: usize, nulls: &[bool], truths: &[bool]) -> Option<Span>
    requires { rows ≤ length truths.now }
    ensures { result ≡ fold span_with span (take rows (marked (λ b. typed (values.Bool b)) nulls.now truths.now)) }
{
    let mut span = span;
    for row in 0..rows {
        span = with_value(
            span,
            is_marked(nulls, row),
            Value::Bool(truth_at(truths, row)),
        );
    }
    span
}

/// A span with the first days of a column that aren't null.
fn with_days(span: Option<Span>, rows: usize, nulls: &[bool], days: &[i32]) -> Option<Span>
    requires { rows ≤ length days.now }
    ensures { result ≡ fold span_with span (take rows (marked (λ n. typed (values.Date n)) nulls.now days.now)) }
{
    let mut span = span;
    for row in 0..rows {
        span = with_value(span, is_marked(nulls, row), Value::Date(day_at(days, row)));
    }
    span
}

fn span_of_numbers(extent: Option<Extent>) -> Option<Span>
    ensures { result ≡ span_by values.Int extent }
{
    let Extent { least, greatest } = extent?;
    Some(Span {
        least: Value::Int(least),
        greatest: Value::Int(greatest),
    })
}

fn span_of_times(extent: Option<Extent>) -> Option<Span>
    ensures { result ≡ span_by values.Time extent }
{
    let Extent { least, greatest } = extent?;
    Some(Span {
        least: Value::Time(least),
        greatest: Value::Time(greatest),
    })
}

fn span_of_stamps(extent: Option<Extent>) -> Option<Span>
    ensures { result ≡ span_by values.Stamp extent }
{
    let Extent { least, greatest } = extent?;
    Some(Span {
        least: Value::Stamp(least),
        greatest: Value::Stamp(greatest),
    })
}

/// A span with the first cells of a column. Where a BIGINT column was measured as it was packed, no number is read.
pub(crate) fn span_with(span: Option<Span>, column: &ColumnView<'_>, rows: usize) -> Option<Span>
    requires { HasRows rows column.now }
    ensures { result ≡ fold span_with span (take rows (view_cells column.now)) }
{
    match *column {
        ColumnView::Boolean(nulls, truths) => with_truths(span, rows, nulls, truths),
        ColumnView::Bigint(numbers) => joined(span, span_of_numbers(numbers.extent(rows))),
        ColumnView::Date(nulls, days) => with_days(span, rows, nulls, days),
        ColumnView::Time(nulls, micros) => {
            joined(span, span_of_times(extent_of(rows, nulls, micros)))
        }
        ColumnView::Timestamp(nulls, stamps) => {
            joined(span, span_of_stamps(extent_of(rows, nulls, stamps)))
        }
        ColumnView::Varchar(_, _) => span,
    }
}
