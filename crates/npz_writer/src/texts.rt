// Texts as they are put into blocks.
ghost use Rattle.std.specs.Prelude.{◌≡◌, ◌≤◌, ◌<◌, ◌+◌, ◌^◌, ◌++◌, ◌⊎◌, [], true, false, length, slice_get, take, Some};
ghost use Rattle.npz_writer.specs.Blocks.{unmarked};

use crate::block::store;
use value_types::{Texts, is_marked};

/// The text of a row: no byte where it is null.
#[inline(always)]
pub(crate) fn text_of<'a>(nulls: &[bool], texts: &'a Texts, row: usize) -> &'a [u8]
    requires { row < length texts.now }
    ensures { slice_get (unmarked [] nulls.now texts.now) row ≡ Some result.now }
{
    if is_marked(nulls, row) {
        return &[];
    }
    texts.get(row)
}

/// Puts as many bytes behind the front of a block as find room, and answers how many.
#[inline(always)]
pub(crate) fn put_front(bytes: &[u8], block: &mut [u8], at: usize) -> usize
    requires { at ≤ length block.old }
    ensures within { result ≤ length bytes.now }
    ensures room { at + result ≤ length block.new }
    ensures some { (at < length block.old → 0 < length bytes.now → 0 < result) }
    ensures bytes { take (at + result) block.new ≡ take at block.old ++ take result bytes.now }
{
    let count = bytes.len().min(block.len() - at);
    store(block, at, &bytes[..count]);
    count
}

/// Whether no byte of a text is pending and there is a further text.
pub(crate) fn wants_text(pending: &[u8], row: usize, rows: usize) -> bool
    ensures yes { result ≡ true → (length pending.now ≡ 0) × (row < rows) }
    ensures fits { result ≡ true → row + 1 < 2 ^ 64 }
    ensures no { result ≡ false → (0 < length pending.now) ⊎ (rows ≤ row) }
{
    pending.is_empty() && row < rows
}
