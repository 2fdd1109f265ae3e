// Numbers that may be null, in eight bytes each or in as few as they need.
ghost use Rattle.std.specs.Prelude.{◌≡◌, ◌≤◌, ◌<◌, ◌+◌, ◌++◌, ◌∷◌, [], true, length, slice_get, take, All, Some, OnErr, OnOk};
ghost use Rattle.value_types.specs.Packed.{numbers_in, IsWithin};
ghost use Rattle.column_store.specs.Numbers.{marks_in, number_options, number_room, values_in, IsWide};

use crate::nullable::Nullable;
use crate::packed_numbers::PackedNumbers;
use csv_source::NoMemory;
use std::alloc::Global;
use value_types::{Extent, NumbersView};

/// The numbers of a BIGINT column. A column that grows is wide; a packed one has no room for more.
#[derive(Drop)]
pub(crate) enum Numbers {
    Wide(Nullable<i64>),
    Packed(PackedNumbers),
}

impl Numbers {
    pub(crate) fn new(alloc: Global) -> Numbers
        ensures { number_options result ≡ [] }
    {
        Numbers::Wide(Nullable::new(alloc))
    }

    pub(crate) fn len(&self) -> usize
        ensures { result ≡ length (number_options self.now) }
    {
        match self {
            Numbers::Wide(column) => column.len(),
            Numbers::Packed(column) => column.len(),
        }
    }

    pub(crate) fn nulls(&self) -> &[bool]
        ensures { result.now ≡ marks_in self.now }
    {
        match self {
            Numbers::Wide(column) => column.nulls(),
            Numbers::Packed(column) => column.nulls(),
        }
    }

    pub(crate) fn values(&self) -> NumbersView<'_>
        ensures { numbers_in result ≡ values_in self.now }
    {
        match self {
            Numbers::Wide(column) => NumbersView::Wide(column.values()),
            Numbers::Packed(column) => NumbersView::Packed(column.packed()),
        }
    }

    #[inline(always)]
    pub(crate) fn get(&self, row: usize) -> Option<i64>
        requires { row < length (number_options self.now) }
        ensures { slice_get (number_options self.now) row ≡ Some result }
    {
        match self {
            Numbers::Wide(column) => column.get(row),
            Numbers::Packed(column) => column.get(row),
        }
    }

    /// Makes room for more numbers; packed ones are then wide.
    pub(crate) fn reserve(&mut self, more: usize) -> Result<(), NoMemory>
        ensures value { number_options self.new ≡ number_options self.old }
        ensures wide { OnOk result (IsWide self.new) }
        ensures ok { OnOk result (length (number_options self.old) + more ≤ number_room self.new) }
        ensures room { number_room self.old ≤ number_room self.new }
    {
        match self {
            Numbers::Wide(column) => column.reserve(more),
            Numbers::Packed(column) => {
                let wide = column.widened(more)?;
                *self = Numbers::Wide(wide);
                Ok(())
            }
        }
    }

    pub(crate) fn push_reserved(&mut self, number: Option<i64>)
        requires { length (number_options self.old) < number_room self.old }
        ensures value { number_options self.new ≡ number_options self.old ++ number ∷ [] }
        ensures room { number_room self.new ≡ number_room self.old }
    {
        match self {
            Numbers::Wide(column) => column.push_reserved(number),
            Numbers::Packed(_) => unreachable!(),
        }
    }

    /// Appends a number. `roomy` says that there is room for it.
    #[inline(always)]
    pub(crate) fn push_number(&mut self, number: i64, roomy: bool) -> Result<(), NoMemory>
        requires { roomy ≡ true → length (number_options self.old) < number_room self.old }
        ensures ok { OnOk result (number_options self.new ≡ number_options self.old ++ Some number ∷ []) }
        ensures err { OnErr result (number_options self.new ≡ number_options self.old) }
        ensures room { number_room self.old ≤ number_room self.new }
    {
        if !roomy {
            self.reserve(1)?;
        }
        match self {
            Numbers::Wide(column) => column.push_value(number),
            Numbers::Packed(_) => unreachable!(),
        }
        Ok(())
    }

    pub(crate) fn append(&mut self, other: &Numbers) -> Result<(), NoMemory>
        ensures ok { OnOk result (number_options self.new ≡ number_options self.old ++ number_options other.now) }
        ensures err { OnErr result (number_options self.new ≡ number_options self.old) }
        ensures room { number_room self.old ≤ number_room self.new }
    {
        self.reserve(other.len())?;
        match (self, other) {
            (Numbers::Wide(column), Numbers::Wide(other)) => column.append(other),
            (Numbers::Wide(column), Numbers::Packed(other)) => {
                other.push_all(column);
                Ok(())
            }
            (Numbers::Packed(_), _) => unreachable!(),
        }
    }

    /// Keeps the first numbers alone.
    pub(crate) fn truncate(&mut self, count: usize)
        ensures value { number_options self.new ≡ take count (number_options self.old) }
        ensures room { number_room self.new ≡ number_room self.old }
    {
        match self {
            Numbers::Wide(column) => column.truncate(count),
            Numbers::Packed(column) => column.truncate(count),
        }
    }

    /// Keeps numbers of this extent in as few bytes as they need, where there is memory to do so.
    pub(crate) fn pack(&mut self, alloc: Global, extent: Extent)
        requires { All (IsWithin extent) (values_in self.old) }
        ensures { number_options self.new ≡ number_options self.old }
    {
        if let Numbers::Wide(column) = self {
            if let Ok(Some(packed)) = PackedNumbers::of(
                alloc,
                extent,
                column.nulls(),
                column.values(),
            ) {
                *self = Numbers::Packed(packed);
            }
        }
    }
}
