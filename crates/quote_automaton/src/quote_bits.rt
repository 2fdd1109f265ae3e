//! Bits for the places of a block, by the quotes before them.
ghost use Rattle.std.specs.Prelude.{◌≡◌, ℕ, ◌<◌, if◌then◌else◌};
ghost use Rattle.std.specs.Int.{bit_at};
ghost use Rattle.quote_automaton.specs.Counted.{begins_counted, bit_behind, is_misplaced, is_set};

/// Each bit one place later, and the first one.
#[inline(always)]
pub(crate) fn behind(mask: u64, first: bool) -> u64
    ensures { (i : ℕ) → i < 64 → bit_at result i ≡ bit_behind first mask i }
{
    (mask << 1) | u64::from(first)
}

/// For each place whether the quotes up to it are odd in number, or even where the first byte stands between quotes. What it
/// answers is tested against the quotes, so that nothing is claimed of it here.
#[inline(always)]
pub(crate) fn parities(quotes: u64, inside: bool) -> u64 {
    let mut odd = quotes;
    odd ^= odd << 1;
    odd ^= odd << 2;
    odd ^= odd << 4;
    odd ^= odd << 8;
    odd ^= odd << 16;
    odd ^= odd << 32;
    if inside { !odd } else { odd }
}

/// The last bit of a mask.
#[inline(always)]
pub(crate) fn last_bit(mask: u64) -> bool
    ensures { result ≡ is_set mask 63 }
{
    (mask >> 63) & 1 == 1
}

/// Where a byte outside quotes is out of its place.
#[inline(always)]
pub(crate) fn misplaced(
    inside: u64,
    comments: u64,
    behind_quotes: u64,
    behind_ends: u64,
    quotes: u64,
    ends: u64,
) -> u64
    ensures { (i : ℕ) → i < 64 → bit_at result i ≡ (if is_misplaced (is_set inside i) (is_set comments i) (is_set behind_quotes i)
        (is_set behind_ends i) (is_set quotes i) (is_set ends i) then 1 else 0) }
{
    !inside
        & (comments
            | ((behind_quotes & !(ends | quotes)) | (quotes & !(behind_quotes | behind_ends))))
}

/// Where rows begin: behind a line end outside quotes, but not at the LF of a CR LF pair.
#[inline(always)]
pub(crate) fn row_starts(inside: u64, behind_line_ends: u64, lf: u64, behind_cr: u64) -> u64
    ensures { (i : ℕ) → i < 64 → bit_at result i ≡ (if begins_counted (is_set inside i) (is_set behind_line_ends i) (is_set lf i) (is_set behind_cr i) then 1 else 0) }
{
    behind_line_ends & !(inside | (lf & behind_cr))
}
