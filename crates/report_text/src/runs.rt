// Runs of bytes that stand for themselves where they are shown.
ghost use Rattle.std.specs.Prelude.{◌≡◌, ◌+◌, ◌≤◌, drop, length, map, nat_lt};
ghost use Rattle.std.specs.List.{prefix_len};
ghost use lib.Lanes.{mask_l};
ghost use Rattle.report_text.specs.Ordinary.{is_ordinary, is_spelled};

use byte_classes::equal_to;
use std::simd::prelude::*;
use text_pieces::{Probe, first_where};

/// Which of the lanes are below a byte, a bit for each.
#[inline(always)]
fn below(lanes: u8x16, byte: u8) -> u64
    ensures { result ≡ mask_l (map (λ x. nat_lt x byte) lanes) }
{
    lanes.simd_lt(u8x16::splat(byte)).to_bitmask()
}

/// A byte that is spelled in another way.
struct Spelled;

impl Probe for Spelled {
    ghost passes = { is_spelled };

    #[inline(always)]
    fn byte(byte: u8) -> bool {
        byte == b'\\' || byte == b'|' || byte == 127 || byte < 32
    }

    #[inline(always)]
    fn lanes(lanes: u8x16) -> u64 {
        equal_to(lanes, b'\\') | equal_to(lanes, b'|') | equal_to(lanes, 127) | below(lanes, 32)
    }
}

/// The end of the run of ordinary bytes from `from` on.
#[inline(always)]
pub(crate) fn run_end(bytes: &[u8], from: usize) -> usize
    requires within { from ≤ length bytes.now }
    ensures value { result ≡ from + prefix_len is_ordinary (drop from bytes.now) }
    ensures within { result ≤ length bytes.now }
{
    first_where::<Spelled>(bytes, from)
}
