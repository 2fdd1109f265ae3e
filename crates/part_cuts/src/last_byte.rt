//! The byte before the next one.
ghost use Rattle.std.specs.Prelude.{◌≡◌};
ghost use Rattle.std.specs.List.{last_or};

use byte_classes::byte_before;

/// The last of some bytes, or the one before them.
pub(crate) fn last_byte(before: Option<u8>, bytes: &[u8]) -> Option<u8>
    ensures { result ≡ last_or before bytes.now }
{
    if bytes.is_empty() {
        before
    } else {
        byte_before(bytes, bytes.len())
    }
}
