// The extent of a column's numbers.
ghost use Rattle.std.specs.Prelude.{◌≡◌, ◌≤◌, ◌<◌, drop, length, map, slice_get, if◌then◌else◌, Some, None};
ghost use Rattle.std.specs.List.{fold};
ghost use Rattle.value_types.specs.declared.types.Value.TheVariants as kinds;
ghost use Rattle.value_types.specs.Datum.{null, typed};
ghost use Rattle.value_types.specs.Marked.{bigint_cells};
ghost use Rattle.value_types.specs.Extent.{extent_of, extent_with};
ghost use Rattle.value_types.specs.Packed.{numbers_in};

use crate::bigint_view::NumbersView;
use crate::extent::{Extent, taking_in};
use crate::views::{is_marked, number_at};

/// An extent with a number, unless it is null.
#[inline(always)]
fn with_number(extent: Option<Extent>, is_null: bool, number: i64) -> Option<Extent>
    ensures { result ≡ extent_with extent (if is_null then null else typed (kinds.Int number)) }
{
    if is_null {
        return extent;
    }
    Some(taking_in(extent, number))
}

/// An extent with numbers. The two bounds stand by themselves, so that several numbers are compared at once.
fn with_plain(extent: Extent, numbers: &[i64]) -> Extent
    ensures { Some result ≡ fold extent_with (Some extent) (map (λ n. typed (kinds.Int n)) numbers.now) }
{
    let Extent {
        mut least,
        mut greatest,
    } = extent;
    for place in 0..numbers.len() {
        let number = number_at(numbers, place);
        least = least.min(number);
        greatest = greatest.max(number);
    }
    Extent { least, greatest }
}

/// The numbers behind the first one.
fn behind_first(numbers: &[i64]) -> &[i64]
    requires { 1 ≤ length numbers.now }
    ensures { result.now ≡ drop 1 numbers.now }
{
    &numbers[1..]
}

/// The extent of numbers, if there are any.
fn extent_of_plain(numbers: &[i64]) -> Option<Extent>
    ensures { result ≡ fold extent_with None (map (λ n. typed (kinds.Int n)) numbers.now) }
{
    if numbers.is_empty() {
        return None;
    }
    let first = number_at(numbers, 0);
    let extent = Extent {
        least: first,
        greatest: first,
    };
    Some(with_plain(extent, behind_first(numbers)))
}

/// The extent of the first numbers of a column, each of which may be null.
pub(crate) fn extent_of_marked(
    rows: usize,
    nulls: &[bool],
    numbers: NumbersView<'_>,
) -> Option<Extent>
    requires { rows ≤ length (numbers_in numbers) }
    ensures { result ≡ extent_of rows (bigint_cells nulls.now (numbers_in numbers.entry)) }
{
    let mut extent = None;
    for row in 0..rows {
        extent = with_number(extent, is_marked(nulls, row), numbers.get(row));
    }
    extent
}

/// The extent of the first numbers of a column that aren't null.
pub fn extent_of(rows: usize, nulls: &[bool], numbers: &[i64]) -> Option<Extent>
    requires { rows ≤ length numbers.now }
    ensures { result ≡ extent_of rows (bigint_cells nulls.now numbers.now) }
{
    if nulls.is_empty() {
        return extent_of_plain(&numbers[..rows]);
    }
    extent_of_marked(rows, nulls, NumbersView::Wide(numbers))
}
