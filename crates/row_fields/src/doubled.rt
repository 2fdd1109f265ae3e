//! Quotes that are doubled.
ghost use Rattle.std.specs.Prelude.{◌≡◌, ◌+◌, ◌<◌, ◌≤◌, ◌==◌, true, false, length, slice_index};

/// Whether the quote stands behind a place, too.
#[inline(always)]
pub fn is_doubled(quote: u8, bytes: &[u8], at: usize) -> bool
    requires within { at ≤ length bytes.now }
    ensures yes { result ≡ true → (at + 1 < length bytes.now) × (slice_index bytes.now (at + 1) ≡ quote) }
    ensures no { result ≡ false → at + 1 < length bytes.now → (slice_index bytes.now (at + 1) == quote) ≡ false }
{
    bytes.len() - at > 1 && bytes[at + 1] == quote
}
