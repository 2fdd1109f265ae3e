// The texts of numbers. Which way to print one is told by its digits alone: there is no jump on its sign, which a processor would
// have to guess.
ghost use Rattle.std.specs.Prelude.{◌≡◌, ◌≤◌, ◌<◌, ◌+◌, ◌++◌, ◌^◌, ℕ, List, length, take};
ghost use Rattle.std.specs.Fmt.{decimal, signed_decimal};
ghost use Rattle.value_types.specs.Words.{IsBlock};

use crate::digit_words::{digits, eight_digits, few_digits, four_digits, put_block};

/// Puts a number of at most seven digits at a place, and behind it a word of at most eight more, with how many they are.
#[inline(always)]
fn put_digits(front: u64, behind: (u64, usize), into: &mut [u8], at: usize) -> usize
    requires front { front < 10_000_000 }
    requires more { behind.1 ≤ 8 }
    requires room { at + 16 ≤ length into.old }
    ensures text { (text : List ℕ) → IsBlock text behind.0 → length text ≡ behind.1 → take result into.new ≡ take at into.old ++ (decimal front ++ text) }
    ensures within { result ≤ at + 7 + behind.1 }
    ensures same { length into.new ≡ length into.old }
{
    let (more, most) = behind;
    let (word, count) = digits(front);
    let block = u128::from(word) + (u128::from(more) << (8 * count));
    put_block(block, count + most, into, at)
}

/// Puts a number of more than fifteen digits at a place.
fn put_many_digits(number: u64, into: &mut [u8], at: usize) -> usize
    requires many { (1_000_000_000_000_000 ≤ number) × (number ≤ 2 ^ 63) }
    requires room { at + 27 ≤ length into.old }
    ensures text { take result into.new ≡ take at into.old ++ decimal number }
    ensures within { result ≤ at + 19 }
    ensures same { length into.new ≡ length into.old }
{
    let upper = number / 100_000_000;
    let middle = (four_digits(upper % 10_000), 4);
    let end = put_digits(upper / 10_000, middle, into, at);
    put_block(u128::from(eight_digits(number % 100_000_000)), 8, into, end)
}

/// Puts a number of more than seven digits at a place.
#[inline(always)]
fn put_long_number(number: u64, into: &mut [u8], at: usize) -> usize
    requires long { (10_000_000 ≤ number) × (number ≤ 2 ^ 63) }
    requires room { at + 27 ≤ length into.old }
    ensures text { take result into.new ≡ take at into.old ++ decimal number }
    ensures within { result ≤ at + 19 }
    ensures same { length into.new ≡ length into.old }
{
    if number < 100_000_000_000 {
        let behind = (four_digits(number % 10_000), 4);
        return put_digits(number / 10_000, behind, into, at);
    }
    if number < 1_000_000_000_000_000 {
        let behind = (eight_digits(number % 100_000_000), 8);
        return put_digits(number / 100_000_000, behind, into, at);
    }
    put_many_digits(number, into, at)
}

/// Puts a number without a sign at a place, and answers the place behind it.
#[inline(always)]
fn put_magnitude(number: u64, into: &mut [u8], at: usize) -> usize
    requires most { number ≤ 2 ^ 63 }
    requires room { at + 27 ≤ length into.old }
    ensures text { take result into.new ≡ take at into.old ++ decimal number }
    ensures within { result ≤ at + 19 }
    ensures same { length into.new ≡ length into.old }
{
    if number < 10 {
        into[at] = number as u8 + b'0';
        return at + 1;
    }
    if number < 10_000 {
        let (word, count) = few_digits(number);
        return put_block(u128::from(word), count, into, at);
    }
    if number < 10_000_000 {
        let (word, count) = digits(number);
        return put_block(u128::from(word), count, into, at);
    }
    put_long_number(number, into, at)
}

/// Puts a number at a place, and answers the place behind it.
///
/// The minus is stored in any case: the digits of a number that has none are written over it.
#[inline(always)]
pub(crate) fn put_number(number: i64, into: &mut [u8], at: usize) -> usize
    requires room { at + 32 ≤ length into.old }
    ensures text { take result into.new ≡ take at into.old ++ signed_decimal number }
    ensures within { result ≤ at + 26 }
    ensures same { length into.new ≡ length into.old }
{
    into[at] = b'-';
    let behind_sign = at + usize::from(number < 0);
    put_magnitude(number.unsigned_abs(), into, behind_sign)
}
