// Numbers in as few bytes as they need.
ghost use Rattle.std.specs.Prelude.{◌≡◌, ◌<◌, ◌≤ℤ◌, ◌-ℤ◌, pos, length, slice_get, take, All, IfOk, IfSome, None, Some};
ghost use Rattle.value_types.specs.Packed.{packed_numbers, IsWithin};

use crate::extent::Extent;
use crate::offsets::Offsets;
use csv_source::NoMemory;
use std::alloc::Global;

/// Numbers as what they have over the least one, in one, two or four bytes each.
#[derive(Drop)]
pub enum Packed {
    Bytes(Offsets<u8>),
    Shorts(Offsets<u16>),
    Words(Offsets<u32>),
}

impl Packed {
    /// Numbers of this extent, unless they need more than four bytes.
    pub fn of(alloc: Global, extent: Extent, numbers: &[i64]) -> Result<Option<Packed>, NoMemory>
        requires { All (IsWithin extent) numbers.now }
        ensures value { IfOk result (λ packed. IfSome packed (λ packed. packed_numbers packed ≡ numbers.now)) }
        ensures none { IfOk result (λ packed. packed ≡ None → pos 4_294_967_296 ≤ℤ (extent.greatest -ℤ extent.least)) }
    {
        let Extent { least, greatest } = extent;
        let span = greatest.saturating_sub(least);
        if span < 256 {
            return Ok(Some(Packed::Bytes(Offsets::of(alloc, least, numbers)?)));
        }
        if span < 65_536 {
            return Ok(Some(Packed::Shorts(Offsets::of(alloc, least, numbers)?)));
        }
        if span < 4_294_967_296 {
            return Ok(Some(Packed::Words(Offsets::of(alloc, least, numbers)?)));
        }
        Ok(None)
    }

    pub fn len(&self) -> usize
        ensures { result ≡ length (packed_numbers self.now) }
    {
        match self {
            Packed::Bytes(offsets) => offsets.len(),
            Packed::Shorts(offsets) => offsets.len(),
            Packed::Words(offsets) => offsets.len(),
        }
    }

    /// The number at a place, counted from 0.
    #[inline(always)]
    pub fn get(&self, place: usize) -> i64
        requires { place < length (packed_numbers self.now) }
        ensures { slice_get (packed_numbers self.now) place ≡ Some result }
    {
        match self {
            Packed::Bytes(offsets) => offsets.get(place),
            Packed::Shorts(offsets) => offsets.get(place),
            Packed::Words(offsets) => offsets.get(place),
        }
    }

    /// Keeps the first numbers alone.
    pub fn truncate(&mut self, count: usize)
        ensures { packed_numbers self.new ≡ take count (packed_numbers self.old) }
    {
        match self {
            Packed::Bytes(offsets) => offsets.truncate(count),
            Packed::Shorts(offsets) => offsets.truncate(count),
            Packed::Words(offsets) => offsets.truncate(count),
        }
    }
}
