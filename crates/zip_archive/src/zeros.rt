// What a byte comes to behind which only zero bytes go into a register.
ghost use Rattle.std.specs.Prelude.{◌≡◌};
ghost use Rattle.zip_archive.specs.Crc.{zeros};

use crate::far_tables::{BEHIND_FIVE, BEHIND_FOUR, BEHIND_SEVEN, BEHIND_SIX};
use crate::tables::{BEHIND_NONE, BEHIND_ONE, BEHIND_THREE, BEHIND_TWO};

/// The register behind a byte and no zeros.
#[inline(always)]
pub(crate) fn behind_none(byte: u8) -> u32
    ensures { result ≡ zeros 1 byte }
{
    BEHIND_NONE[byte as usize]
}

/// The register behind a byte and a zero byte.
#[inline(always)]
pub(crate) fn behind_one(byte: u8) -> u32
    ensures { result ≡ zeros 2 byte }
{
    BEHIND_ONE[byte as usize]
}

/// The register behind a byte and two zero bytes.
#[inline(always)]
pub(crate) fn behind_two(byte: u8) -> u32
    ensures { result ≡ zeros 3 byte }
{
    BEHIND_TWO[byte as usize]
}

/// The register behind a byte and three zero bytes.
#[inline(always)]
pub(crate) fn behind_three(byte: u8) -> u32
    ensures { result ≡ zeros 4 byte }
{
    BEHIND_THREE[byte as usize]
}

/// The register behind a byte and four zero bytes.
#[inline(always)]
pub(crate) fn behind_four(byte: u8) -> u32
    ensures { result ≡ zeros 5 byte }
{
    BEHIND_FOUR[byte as usize]
}

/// The register behind a byte and five zero bytes.
#[inline(always)]
pub(crate) fn behind_five(byte: u8) -> u32
    ensures { result ≡ zeros 6 byte }
{
    BEHIND_FIVE[byte as usize]
}

/// The register behind a byte and six zero bytes.
#[inline(always)]
pub(crate) fn behind_six(byte: u8) -> u32
    ensures { result ≡ zeros 7 byte }
{
    BEHIND_SIX[byte as usize]
}

/// The register behind a byte and seven zero bytes.
#[inline(always)]
pub(crate) fn behind_seven(byte: u8) -> u32
    ensures { result ≡ zeros 8 byte }
{
    BEHIND_SEVEN[byte as usize]
}

/// The register behind eight zero bytes, where the eight bytes of a number stood in it, the lowest first.
#[inline(always)]
pub(crate) fn behind_eight_zeros(number: u64) -> u32
    ensures { result ≡ zeros 8 number }
{
    let [first, second, third, fourth, fifth, sixth, seventh, eighth] = number.to_le_bytes();
    behind_seven(first)
        ^ behind_six(second)
        ^ behind_five(third)
        ^ behind_four(fourth)
        ^ behind_three(fifth)
        ^ behind_two(sixth)
        ^ behind_one(seventh)
        ^ behind_none(eighth)
}
