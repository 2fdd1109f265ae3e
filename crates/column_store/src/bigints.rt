// The numbers of a BIGINT column.
ghost use Rattle.std.specs.Prelude.{◌≡◌, ◌≤◌, ◌<◌, ◌+◌, ◌++◌, ◌∷◌, [], true, is_some, length, map, slice_get, take, IfOk, Some, OnErr, OnOk};
ghost use Rattle.std.specs.Option.{option_to_list};
ghost use Rattle.value_types.specs.declared.views.ColumnView.TheVariants.{Bigint};
ghost use Rattle.value_types.specs.Packed.{numbers_in};
ghost use Rattle.value_types.specs.Views.{view_cells};
ghost use Rattle.column_store.specs.Measured.{number_cells, IsMeasured};
ghost use Rattle.column_store.specs.Numbers.{number_options, number_room, values_in};

use crate::numbers::Numbers;
use csv_source::NoMemory;
use std::alloc::Global;
use value_types::{BigintView, Extent};

/// Numbers that may be null, and the extent of the first ones, as many as have been measured. It stays right when
/// numbers are appended.
#[derive(Drop)]
pub(crate) struct Bigints {
    numbers: Numbers,
    measured: usize,
    extent: Option<Extent>,
    ghost exact: { IsMeasured measured extent (number_cells numbers) },
}

impl Bigints {
    pub(crate) fn new(alloc: Global) -> Bigints
        ensures { number_options result.numbers ≡ [] }
    {
        Bigints {
            numbers: Numbers::new(alloc),
            measured: 0,
            extent: None,
        }
    }

    pub(crate) fn view(&self) -> BigintView<'_>
        ensures cells { view_cells (Bigint result) ≡ number_cells self.now.numbers }
        ensures values { numbers_in result.values ≡ values_in self.now.numbers }
        ensures fits { length (number_options self.now.numbers) ≡ length (numbers_in result.values) }
    {
        BigintView::new(
            self.numbers.nulls(),
            self.numbers.values(),
            self.measured,
            self.extent,
        )
    }

    pub(crate) fn get(&self, row: usize) -> Option<i64>
        requires { row < length (number_options self.now.numbers) }
        ensures { slice_get (number_options self.now.numbers) row ≡ Some result }
    {
        self.numbers.get(row)
    }

    pub(crate) fn reserve(&mut self, more: usize) -> Result<(), NoMemory>
        ensures value { number_options self.new.numbers ≡ number_options self.old.numbers }
        ensures ok { OnOk result (length (number_options self.old.numbers) + more ≤ number_room self.new.numbers) }
        ensures room { number_room self.old.numbers ≤ number_room self.new.numbers }
    {
        self.numbers.reserve(more)
    }

    pub(crate) fn push(&mut self, number: Option<i64>) -> Result<(), NoMemory>
        ensures ok { OnOk result (number_options self.new.numbers ≡ number_options self.old.numbers ++ number ∷ []) }
        ensures err { OnErr result (number_options self.new.numbers ≡ number_options self.old.numbers) }
        ensures room { number_room self.old.numbers ≤ number_room self.new.numbers }
    {
        self.numbers.reserve(1)?;
        self.numbers.push_reserved(number);
        Ok(())
    }

    pub(crate) fn push_reserved(&mut self, number: Option<i64>)
        requires { length (number_options self.old.numbers) < number_room self.old.numbers }
        ensures value { number_options self.new.numbers ≡ number_options self.old.numbers ++ number ∷ [] }
        ensures room { number_room self.new.numbers ≡ number_room self.old.numbers }
    {
        self.numbers.push_reserved(number);
    }

    /// Appends a number where there is one, and answers whether there is. `roomy` says that there is room for it.
    #[inline(always)]
    pub(crate) fn push_some(&mut self, number: Option<i64>, roomy: bool) -> Result<bool, NoMemory>
        requires { roomy ≡ true → length (number_options self.old.numbers) < number_room self.old.numbers }
        ensures value { IfOk result (λ some. some ≡ is_some number) }
        ensures ok { OnOk result (number_options self.new.numbers ≡ number_options self.old.numbers ++ map Some (option_to_list number)) }
        ensures err { OnErr result (number_options self.new.numbers ≡ number_options self.old.numbers) }
        ensures room { number_room self.old.numbers ≤ number_room self.new.numbers }
    {
        let Some(number) = number else {
            return Ok(false);
        };
        self.numbers.push_number(number, roomy)?;
        Ok(true)
    }

    /// Appends a number. `roomy` says that there is room for it.
    #[inline(always)]
    pub(crate) fn push_number(&mut self, number: i64, roomy: bool) -> Result<(), NoMemory>
        requires { roomy ≡ true → length (number_options self.old.numbers) < number_room self.old.numbers }
        ensures ok { OnOk result (number_options self.new.numbers ≡ number_options self.old.numbers ++ Some number ∷ []) }
        ensures err { OnErr result (number_options self.new.numbers ≡ number_options self.old.numbers) }
        ensures room { number_room self.old.numbers ≤ number_room self.new.numbers }
    {
        self.numbers.push_number(number, roomy)
    }

    pub(crate) fn append(&mut self, other: &Bigints) -> Result<(), NoMemory>
        ensures ok { OnOk result (number_options self.new.numbers ≡ number_options self.old.numbers ++ number_options other.now.numbers) }
        ensures err { OnErr result (number_options self.new.numbers ≡ number_options self.old.numbers) }
        ensures room { number_room self.old.numbers ≤ number_room self.new.numbers }
    {
        self.numbers.append(&other.numbers)
    }

    /// Keeps the first numbers alone.
    pub(crate) fn truncate(&mut self, count: usize)
        ensures value { number_options self.new.numbers ≡ take count (number_options self.old.numbers) }
        ensures room { number_room self.new.numbers ≡ number_room self.old.numbers }
    {
        self.numbers.truncate(count);
        self.measured = 0;
        self.extent = None;
    }

    /// Takes the extent of all numbers.
    pub(crate) fn measure(&mut self)
        ensures same { self.new.numbers ≡ self.old.numbers }
        ensures value { self.new.measured ≡ length (number_options self.new.numbers) }
    {
        let count = self.numbers.len();
        self.extent = self.view().extent(count);
        self.measured = count;
    }

    /// Keeps the numbers in as few bytes as they need, where there is memory to do so.
    pub(crate) fn pack(&mut self, alloc: Global)
        ensures { number_options self.new.numbers ≡ number_options self.old.numbers }
    {
        let count = self.numbers.len();
        if let Some(extent) = self.view().extent_of_values(count) {
            self.numbers.pack(alloc, extent);
        }
    }
}
