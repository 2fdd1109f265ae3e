// The cells of a BIGINT column, seen behind one another.
ghost use Rattle.std.specs.Prelude.{◌≡◌, ◌≤◌, ◌<◌, length, slice_get, All, IfSome, Some};
ghost use Rattle.value_types.specs.Extent.{extent_of};
ghost use Rattle.value_types.specs.Marked.{bigint_cells};
ghost use Rattle.value_types.specs.Packed.{numbers_in, IsWithin};

use crate::extent::Extent;
use crate::measuring::{extent_of, extent_of_marked};
use crate::packed::Packed;
use crate::views::number_at;

/// Numbers, each in eight bytes or all in as few as they need.
#[derive(Clone, Copy)]
pub enum NumbersView<'a> {
    Wide(&'a [i64]),
    Packed(&'a Packed),
}

impl<'a> NumbersView<'a> {
    /// The number at a place, counted from 0.
    #[inline(always)]
    pub(crate) fn get(&self, place: usize) -> i64
        requires { place < length (numbers_in self.now) }
        ensures { slice_get (numbers_in self.now) place ≡ Some result }
    {
        match *self {
            NumbersView::Wide(numbers) => number_at(numbers, place),
            NumbersView::Packed(packed) => packed.get(place),
        }
    }
}

/// The cells of a BIGINT column, and the extent of the first ones, as many as have been measured: none at all, where
/// nobody has measured the column.
#[derive(Clone, Copy)]
pub struct BigintView<'a> {
    nulls: &'a [bool],
    values: NumbersView<'a>,
    measured: usize,
    extent: Option<Extent>,
    ghost exact: { extent ≡ extent_of measured (bigint_cells nulls.now (numbers_in values)) },
}

impl<'a> BigintView<'a> {
    /// These marks and values, the first of which, so many, have this extent.
    pub fn new(
        nulls: &'a [bool],
        values: NumbersView<'a>,
        measured: usize,
        extent: Option<Extent>,
    ) -> BigintView<'a>
        requires { extent ≡ extent_of measured (bigint_cells nulls.now (numbers_in values)) }
        ensures nulls { result.nulls.now ≡ nulls.now }
        ensures value { result.values ≡ values.entry }
    {
        BigintView {
            nulls,
            values,
            measured,
            extent,
        }
    }

    /// The marks of the first cells.
    pub fn nulls(&self) -> &'a [bool]
        ensures { result.now ≡ self.now.nulls.now }
    {
        self.nulls
    }

    /// The values; one that is marked counts for nothing.
    pub fn values(&self) -> NumbersView<'a>
        ensures { result ≡ self.now.values }
    {
        self.values
    }

    /// The extent of the first cells. Where just these have been measured, no cell is read.
    pub fn extent(&self, rows: usize) -> Option<Extent>
        requires { rows ≤ length (numbers_in self.now.values) }
        ensures { result ≡ extent_of rows (bigint_cells self.now.nulls.now (numbers_in self.now.values)) }
    {
        if rows == self.measured {
            return self.extent;
        }
        match self.values {
            NumbersView::Wide(numbers) => extent_of(rows, self.nulls, numbers),
            NumbersView::Packed(_) => extent_of_marked(rows, self.nulls, self.values),
        }
    }

    /// The extent of all values, those that are null among them.
    pub fn extent_of_values(&self, rows: usize) -> Option<Extent>
        requires { rows ≡ length (numbers_in self.now.values) }
        ensures { IfSome result (λ extent. All (IsWithin extent) (numbers_in self.now.values)) }
    {
        if self.nulls.is_empty() {
            return self.extent(rows);
        }
        BigintView::new(&[], self.values, 0, None).extent(rows)
    }
}
