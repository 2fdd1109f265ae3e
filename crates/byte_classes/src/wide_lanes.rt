//! Comparisons of 64 bytes at a time.
ghost use Rattle.std.specs.Prelude.{◌≡◌, ◌+◌, ◌≤◌, ◌==◌, length, map};
ghost use lib.Lanes.{chunk, mask_l};
ghost use Rattle.byte_classes.specs.Masks.{HasBits};
ghost use Rattle.byte_classes.specs.Special.{is_one_of};

use std::simd::prelude::*;

/// The 64 bytes from `at` on.
#[inline(always)]
pub fn wide_lanes_at(bytes: &[u8], at: usize) -> u8x64
    requires within { at + 64 ≤ length bytes.now }
    ensures value { result ≡ chunk at 64 bytes.now }
    ensures count { length result ≡ 64 }
{
    u8x64::from_slice(&bytes[at..at + 64])
}

/// Which of the lanes equal a byte, a bit for each.
#[inline(always)]
pub fn wide_equal_to(lanes: u8x64, byte: u8) -> u64
    ensures mask { result ≡ mask_l (map (λ b. b == byte) lanes) }
    ensures bits { HasBits (λ b. b == byte) lanes result }
{
    lanes.simd_eq(u8x64::splat(byte)).to_bitmask()
}

/// Which of the lanes equal one of three bytes. The comparisons are joined while they are lanes, so that one mask alone is
/// moved out of them.
#[inline(always)]
pub fn wide_equal_to_one_of(lanes: u8x64, a: u8, b: u8, c: u8) -> u64
    ensures mask { result ≡ mask_l (map (is_one_of a b c) lanes) }
    ensures bits { HasBits (is_one_of a b c) lanes result }
{
    let (a, b, c) = (u8x64::splat(a), u8x64::splat(b), u8x64::splat(c));
    (lanes.simd_eq(a) | lanes.simd_eq(b) | lanes.simd_eq(c)).to_bitmask()
}
