// Digits as they are printed, in words of bytes of which the first counts least: two at one look into a table.
ghost use Rattle.std.specs.Prelude.{◌≡◌, ◌≤◌, ◌<◌, ◌+◌, ◌*◌, ◌/◌, ◌%◌, ◌++◌, ◌^◌, List, ℕ, length, take};
ghost use Rattle.std.specs.Fmt.{decimal};
ghost use Rattle.value_types.specs.ValueText.{padded};
ghost use Rattle.value_types.specs.Words.{IsBlock, word_of};

use std::simd::prelude::*;

/// One more than the greatest word.
const WORD: u128 = 0x1_0000_0000_0000_0000;

/// The two digits of each number below a hundred.
static PAIRS: [u8; 200] =
    *b"00010203040506070809101112131415161718192021222324252627282930313233343536373839404142434445464748495051525354555657585960616263646566676869707172737475767778798081828384858687888990919293949596979899";

/// The two digits of a number.
#[inline(always)]
pub(crate) fn pair(number: u64) -> u64
    requires { number < 100 }
    ensures value { result ≡ (48 + number / 10) + 256 * (48 + number % 10) }
    ensures small { result < 2 ^ 16 }
{
    let at = number as usize * 2;
    u64::from(PAIRS[at]) + u64::from(PAIRS[at + 1]) * 256
}

/// The four digits of a number, with zeros in front.
#[inline(always)]
pub(crate) fn four_digits(number: u64) -> u64
    requires { number < 10_000 }
    ensures value { result ≡ word_of (padded 4 number) }
    ensures small { result < 2 ^ 32 }
{
    pair(number / 100) + pair(number % 100) * 0x1_0000
}

/// The eight digits of a number, with zeros in front.
#[inline(always)]
pub(crate) fn eight_digits(number: u64) -> u64
    requires { number < 100_000_000 }
    ensures { result ≡ word_of (padded 8 number) }
{
    four_digits(number / 10_000) + four_digits(number % 10_000) * 0x1_0000_0000
}

/// One where a number is at least another, else nothing.
#[inline(always)]
fn reaches(number: u64, least: u64) -> usize
    ensures one { least ≤ number → result ≡ 1 }
    ensures none { number < least → result ≡ 0 }
    ensures most { result ≤ 1 }
{
    if number >= least { 1 } else { 0 }
}

/// How many digits a number of at most four has.
#[inline(always)]
fn few_digit_count(number: u64) -> usize
    requires { number < 10_000 }
    ensures value { result ≡ length (decimal number) }
    ensures few { (1 ≤ result) × (result ≤ 4) }
{
    1 + reaches(number, 10) + reaches(number, 100) + reaches(number, 1000)
}

/// How many digits a number has: no jump, which a processor would have to guess.
#[inline(always)]
fn digit_count(number: u64) -> usize
    requires { number < 10_000_000 }
    ensures value { result ≡ length (decimal number) }
    ensures few { (1 ≤ result) × (result ≤ 7) }
{
    1 + reaches(number, 10)
        + reaches(number, 100)
        + reaches(number, 1000)
        + reaches(number, 10_000)
        + reaches(number, 100_000)
        + reaches(number, 1_000_000)
}

/// The digits of a number of at most four, and how many they are.
#[inline(always)]
pub(crate) fn few_digits(number: u64) -> (u64, usize)
    requires { number < 10_000 }
    ensures value { result.0 ≡ word_of (decimal number) }
    ensures count { result.1 ≡ length (decimal number) }
    ensures short { result.1 ≤ 4 }
{
    let count = few_digit_count(number);
    (four_digits(number) >> (8 * (4 - count)), count)
}

/// The digits of a number of at most seven, and how many they are.
#[inline(always)]
pub(crate) fn digits(number: u64) -> (u64, usize)
    requires { number < 10_000_000 }
    ensures value { result.0 ≡ word_of (decimal number) }
    ensures count { result.1 ≡ length (decimal number) }
    ensures short { result.1 ≤ 7 }
{
    let count = digit_count(number);
    (eight_digits(number) >> (8 * (8 - count)), count)
}

/// Two words as one.
#[inline(always)]
pub(crate) fn block(first: u64, second: u64) -> u128
    ensures { result ≡ first + 2 ^ 64 * second }
{
    u128::from(first) + u128::from(second) * WORD
}

/// Puts a text of at most sixteen bytes at a place, and answers the place behind it. All sixteen are stored: that takes a store of
/// a fixed length, and no call.
#[inline(always)]
pub(crate) fn put_block(block: u128, count: usize, into: &mut [u8], at: usize) -> usize
    requires short { count ≤ 16 }
    requires room { at + 16 ≤ length into.old }
    ensures text { (text : List ℕ) → IsBlock text block → length text ≡ count → take result into.new ≡ take at into.old ++ text }
    ensures end { result ≡ at + count }
    ensures same { length into.new ≡ length into.old }
{
    let words = u64x2::from_array([(block % WORD) as u64, (block / WORD) as u64]);
    into[at..at + 16].copy_from_slice(words.to_le_bytes().as_array());
    at + count
}
