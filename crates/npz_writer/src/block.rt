// Blocks of bytes.
ghost use Rattle.std.specs.Prelude.{◌≡◌, ◌≤◌, ◌+◌, ◌++◌, length, pos, take};
ghost use Rattle.npz_writer.specs.Arrays.{number_bytes};

/// The bytes of a number, the lowest first.
#[tactic(auto, unfolding(crate::specs::Arrays::number_bytes))]
#[inline(always)]
pub(crate) fn number_bytes(number: i64) -> [u8; 8]
    ensures { result ≡ number_bytes number }
{
    number.to_le_bytes()
}

/// The bytes of a place.
#[tactic(auto, unfolding(crate::specs::Arrays::number_bytes))]
#[inline(always)]
pub(crate) fn place_bytes(place: u64) -> [u8; 8]
    ensures { result ≡ number_bytes (pos place) }
{
    place.to_le_bytes()
}

/// Stores bytes at a place.
#[inline(always)]
pub(crate) fn store(block: &mut [u8], at: usize, bytes: &[u8])
    requires room { at + length bytes.now ≤ length block.old }
    ensures { take (at + length bytes.now) block.new ≡ take at block.old ++ bytes.now }
{
    block[at..at + bytes.len()].copy_from_slice(bytes);
}
