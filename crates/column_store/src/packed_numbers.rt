// Numbers that may be null, in as few bytes as they need.
ghost use Rattle.std.specs.Prelude.{◌≡◌, ◌≤◌, ◌<◌, ◌+◌, ◌++◌, length, slice_get, take, All, IfOk, IfSome, Some};
ghost use Rattle.value_types.specs.Packed.{packed_numbers, IsWithin};
ghost use Rattle.column_store.specs.Nullable.{options, options_of, room};
ghost use Rattle.column_store.specs.Numbers.{packed_options};

use crate::nullable::Nullable;
use csv_source::NoMemory;
use std::alloc::Global;
use value_types::{Extent, Packed, is_marked};

/// Numbers in as few bytes as they need, and marks that say which of the first ones are null: such a number counts for
/// nothing.
#[derive(Drop)]
pub(crate) struct PackedNumbers {
    alloc: Global,
    nulls: Vec<bool>,
    packed: Packed,
}

impl PackedNumbers {
    /// Numbers of this extent, unless they need more than four bytes.
    pub(crate) fn of(
        alloc: Global,
        extent: Extent,
        nulls: &[bool],
        values: &[i64],
    ) -> Result<Option<PackedNumbers>, NoMemory>
        requires { All (IsWithin extent) values.now }
        ensures { IfOk result (λ packed. IfSome packed (λ packed. packed_options packed ≡ options_of nulls.now values.now)) }
    {
        let mut marks = Vec::new(alloc);
        marks.extend_from_slice(nulls)?;
        match Packed::of(alloc, extent, values)? {
            Some(packed) => Ok(Some(PackedNumbers {
                alloc,
                nulls: marks,
                packed,
            })),
            None => Ok(None),
        }
    }

    pub(crate) fn len(&self) -> usize
        ensures { result ≡ length (packed_options self.now) }
    {
        self.packed.len()
    }

    pub(crate) fn nulls(&self) -> &[bool]
        ensures { result.now ≡ self.now.nulls.items }
    {
        &self.nulls
    }

    pub(crate) fn packed(&self) -> &Packed
        ensures { result.now ≡ self.now.packed }
    {
        &self.packed
    }

    #[inline(always)]
    pub(crate) fn get(&self, row: usize) -> Option<i64>
        requires { row < length (packed_options self.now) }
        ensures { slice_get (packed_options self.now) row ≡ Some result }
    {
        if is_marked(&self.nulls, row) {
            None
        } else {
            Some(self.packed.get(row))
        }
    }

    /// Appends the numbers to others that have room for them.
    pub(crate) fn push_all(&self, wide: &mut Nullable<i64>)
        requires { length (options wide.old) + length (packed_options self.now) ≤ room wide.old }
        ensures value { options wide.new ≡ options wide.old ++ packed_options self.now }
        ensures room { room wide.new ≡ room wide.old }
    {
        for row in 0..self.len() {
            wide.push_reserved(self.get(row));
        }
    }

    /// The numbers in eight bytes each, with room for more.
    #[cold]
    #[inline(never)]
    pub(crate) fn widened(&self, more: usize) -> Result<Nullable<i64>, NoMemory>
        ensures value { IfOk result (λ wide. options wide ≡ packed_options self.now) }
        ensures room { IfOk result (λ wide. length (options wide) + more ≤ room wide) }
    {
        let Some(all) = self.len().checked_add(more) else {
            return Err(NoMemory);
        };
        let mut wide = Nullable::new(self.alloc);
        wide.reserve(all)?;
        self.push_all(&mut wide);
        Ok(wide)
    }

    /// Keeps the first numbers alone.
    pub(crate) fn truncate(&mut self, count: usize)
        ensures { packed_options self.new ≡ take count (packed_options self.old) }
    {
        self.nulls.truncate(count);
        self.packed.truncate(count);
    }
}
