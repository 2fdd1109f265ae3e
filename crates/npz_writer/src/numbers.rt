// The numbers of a column.
ghost use Rattle.std.specs.Prelude.{◌≡◌, ◌≤◌, ◌<◌, ◌-◌, ◌*◌, flat_map, length, slice_get, slice_range, take, if◌then◌else◌, Some};
ghost use Rattle.value_types.specs.Packed.{numbers_in};
ghost use Rattle.npz_writer.specs.Arrays.{number_bytes};
ghost use Rattle.npz_writer.specs.Blocks.{numbers_of, unmarked, written_numbers};

use crate::block::{number_bytes, store};
use value_types::{NumbersView, Packed, is_marked};

/// Numbers, whatever they are kept in.
#[derive(Clone, Copy)]
pub(crate) enum Numbers<'a> {
    Days(&'a [i32]),
    Wide(&'a [i64]),
    Packed(&'a Packed),
}

/// Numbers, marks that say which of the first ones are null, and what is written for these.
#[derive(Clone, Copy)]
pub(crate) struct NumberColumn<'a> {
    pub(crate) nulls: &'a [bool],
    pub(crate) numbers: Numbers<'a>,
    pub(crate) null: i64,
}

fn day_at(days: &[i32], row: usize) -> i64
    requires { row < length days.now }
    ensures { slice_get days.now row ≡ Some result }
{
    i64::from(days[row])
}

fn number_at(numbers: &[i64], row: usize) -> i64
    requires { row < length numbers.now }
    ensures { slice_get numbers.now row ≡ Some result }
{
    numbers[row]
}

impl<'a> Numbers<'a> {
    /// The numbers of a BIGINT column.
    pub(crate) fn of(numbers: NumbersView<'a>) -> Numbers<'a>
        ensures { numbers_of result ≡ numbers_in numbers.entry }
    {
        match numbers {
            NumbersView::Wide(wide) => Numbers::Wide(wide),
            NumbersView::Packed(packed) => Numbers::Packed(packed),
        }
    }

    /// The number of a row, counted from 0.
    #[inline(always)]
    fn get(&self, row: usize) -> i64
        requires { row < length (numbers_of self.now) }
        ensures { slice_get (numbers_of self.now) row ≡ Some result }
    {
        match *self {
            Numbers::Days(days) => day_at(days, row),
            Numbers::Wide(wide) => number_at(wide, row),
            Numbers::Packed(packed) => packed.get(row),
        }
    }
}

/// A number, or another one in its place where it is null.
#[inline(always)]
fn unless_null(is_null: bool, null: i64, number: i64) -> i64
    ensures { result ≡ (if is_null then null else number) }
{
    if is_null { null } else { number }
}

impl<'a> NumberColumn<'a> {
    pub(crate) fn new(nulls: &'a [bool], numbers: Numbers<'a>, null: i64) -> NumberColumn<'a>
        ensures { written_numbers result ≡ unmarked null nulls.now (numbers_of numbers.entry) }
    {
        NumberColumn {
            nulls,
            numbers,
            null,
        }
    }

    /// What is written for a row, counted from 0.
    #[inline(always)]
    fn get(&self, row: usize) -> i64
        requires { row < length (numbers_of self.now.numbers) }
        ensures { slice_get (written_numbers self.now) row ≡ Some result }
    {
        unless_null(is_marked(self.nulls, row), self.null, self.numbers.get(row))
    }

    /// Puts what is written for the rows from `from` to before `to` in front of a block.
    pub(crate) fn put(&self, from: usize, to: usize, block: &mut [u8])
        requires ordered { from ≤ to }
        requires within { to ≤ length (numbers_of self.now.numbers) }
        requires room { 8 * (to - from) ≤ length block.old }
        ensures { take (8 * (to - from)) block.new ≡ flat_map number_bytes (slice_range (written_numbers self.now) from to) }
    {
        for row in from..to {
            let bytes = number_bytes(self.get(row));
            store(block, 8 * (row - from), &bytes);
        }
    }
}
