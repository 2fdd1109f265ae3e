// The numbers of pages.
ghost use Rattle.std.specs.Prelude.{◌≡◌, IfOk};
ghost use Rattle.db_pages.specs.Numbers.{four_bytes, number_of};

use csv_source::NoMemory;

/// How many bytes a page has.
pub(crate) const PAGE: usize = 4096;

/// The place from where on numbers skip the page of the locks, which holds byte 2^30 of a file.
const LOCK_PLACE: u64 = 262_144;

/// The last place whose number fits 32 bits.
const LAST_PLACE: u64 = 4_294_967_293;

/// The number of the page at a place, or `NoMemory` where it doesn't fit 32 bits.
pub(crate) fn number_of(place: u64) -> Result<u32, NoMemory>
    ensures { IfOk result (λ number. number ≡ number_of place) }
{
    if place > LAST_PLACE {
        return Err(NoMemory);
    }
    if place < LOCK_PLACE {
        return Ok(place as u32 + 1);
    }
    Ok(place as u32 + 2)
}

/// A number in four bytes, the most significant first.
#[inline(always)]
pub(crate) fn four_bytes(number: u32) -> [u8; 4]
    ensures { result ≡ four_bytes number }
{
    [
        (number / 16_777_216) as u8,
        (number / 65_536 % 256) as u8,
        (number / 256 % 256) as u8,
        (number % 256) as u8,
    ]
}

/// The number of the page at a place in four bytes.
pub(crate) fn number_bytes(place: u64) -> Result<[u8; 4], NoMemory>
    ensures { IfOk result (λ bytes. bytes ≡ four_bytes (number_of place)) }
{
    Ok(four_bytes(number_of(place)?))
}
