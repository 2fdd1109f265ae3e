//! The byte before a place.
ghost use Rattle.std.specs.Prelude.{◌≡◌, ◌≤◌, length};
ghost use Rattle.byte_classes.specs.Places.{byte_before};

/// The byte before a place, where there is one.
pub fn byte_before(bytes: &[u8], place: usize) -> Option<u8>
    requires within { place ≤ length bytes.now }
    ensures { result ≡ byte_before bytes.now place }
{
    bytes[..place].last().copied()
}
