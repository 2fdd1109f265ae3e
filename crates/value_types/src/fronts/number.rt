// A number of 64 bits at the front of a text that goes on behind it, as a field in its row.
ghost use Rattle.std.specs.Prelude.{◌≡◌, ◌≤◌, ◌<◌, ◌+◌, ◌^◌, false, true, length, slice_index, slice_range, IfSome, Some, neg_ℤ, pos};
ghost use Rattle.std.specs.Char.{is_ascii_digit};
ghost use Rattle.std.specs.List.{list_all};
ghost use Rattle.value_types.specs.Cast.{bigint_of, trimmed};
ghost use Rattle.value_types.specs.Digits.{is_numeral, natural_of};

use crate::words::{digit_count, digits_at, word_at};

/// A number that the bytes from a place on spell, and the place behind its last digit.
#[derive(Clone, Copy)]
pub struct FrontNumber {
    pub number: i64,
    pub end: usize,
}

/// What digits at a place spell, and the place behind them.
#[derive(Clone, Copy)]
struct FrontDigits {
    number: u64,
    end: usize,
}

/// Whether a byte may stand in what `bigint_front` reads: a digit or a minus.
pub fn is_numeral(byte: u8) -> bool
    ensures { result ≡ is_numeral byte }
{
    byte.is_ascii_digit() || byte == b'-'
}

/// A number behind a minus.
#[inline(always)]
fn negated(number: u64) -> i64
    requires { number < 2 ^ 63 }
    ensures { result ≡ neg_ℤ (pos number) }
{
    -(number as i64)
}

/// The number that eight digits at a place spell with up to seven behind them.
#[inline(always)]
fn long_number(bytes: &[u8], from: usize, more: usize) -> u64
    requires few { more < 8 }
    requires within { from + 16 ≤ length bytes.now }
    requires digits { list_all is_ascii_digit (slice_range bytes.now from (from + 8 + more)) ≡ true }
    ensures value { natural_of (slice_range bytes.now from (from + 8 + more)) ≡ Some result }
    ensures small { result < 2 ^ 63 }
{
    let back = digits_at(bytes, from + more, 8);
    if more == 0 {
        return back;
    }
    digits_at(bytes, from, more) * 100_000_000 + back
}

/// The digits from a place on, where they are one to fifteen. None also near the bytes' end, where no word can be read.
#[inline(always)]
fn digits_front(bytes: &[u8], from: usize) -> Option<FrontDigits>
    requires within { from ≤ length bytes.now }
    ensures within { IfSome result (λ front. (from < front.end) × (front.end < length bytes.now)) }
    ensures value { IfSome result (λ front. (natural_of (slice_range bytes.now from front.end) ≡ Some front.number) × (front.number < 2 ^ 63)) }
    ensures whole { IfSome result (λ front. is_ascii_digit (slice_index bytes.now front.end) ≡ false) }
{
    if bytes.len() - from < 16 {
        return None;
    }
    let count = digit_count(word_at(bytes, from));
    if count == 0 {
        return None;
    }
    if count < 8 {
        return Some(FrontDigits {
            number: digits_at(bytes, from, count),
            end: from + count,
        });
    }
    let more = digit_count(word_at(bytes, from + 8));
    if more == 8 {
        return None;
    }
    Some(FrontDigits {
        number: long_number(bytes, from, more),
        end: from + 8 + more,
    })
}

/// The number that digits from a place on spell, behind a minus if one is there, as many digits as stand there. None where
/// `cast_bigint` has to be asked: at a space or a plus, of more than fifteen digits, and near the bytes' end.
#[inline(always)]
pub fn bigint_front(bytes: &[u8], from: usize) -> Option<FrontNumber>
    requires within { from ≤ length bytes.now }
    ensures within { IfSome result (λ front. (from < front.end) × (front.end < length bytes.now)) }
    ensures value { IfSome result (λ front. bigint_of (trimmed (slice_range bytes.now from front.end)) ≡ Some front.number) }
    ensures plain { IfSome result (λ front. list_all is_numeral (slice_range bytes.now from front.end) ≡ true) }
    ensures whole { IfSome result (λ front. is_ascii_digit (slice_index bytes.now front.end) ≡ false) }
{
    if from < bytes.len() && bytes[from] == b'-' {
        let front = digits_front(bytes, from + 1)?;
        return Some(FrontNumber {
            number: negated(front.number),
            end: front.end,
        });
    }
    let front = digits_front(bytes, from)?;
    Some(FrontNumber {
        number: front.number as i64,
        end: front.end,
    })
}
