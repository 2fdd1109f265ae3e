// The first byte that passes a test, found by lanes.
ghost use Rattle.std.specs.Prelude.{◌≡◌, ◌+◌, ◌≤◌, ℕ, Bool, drop, length, map, not};
ghost use Rattle.std.specs.List.{prefix_len};
ghost use lib.Lanes.{mask_l};

use crate::runs::run_behind;
use byte_classes::lanes_at;
use std::simd::prelude::*;

/// A test of bytes, of one and of 16 at once.
pub trait Probe {
    /// Whether a byte passes.
    ghost passes: { ℕ → Bool };

    fn byte(byte: u8) -> bool
        ensures { result ≡ passes byte };

    /// Which of the lanes pass, a bit for each.
    fn lanes(lanes: u8x16) -> u64
        ensures { result ≡ mask_l (map passes lanes) };
}

/// The place of the first byte from `from` on that passes, or the length, in few bytes.
#[inline(always)]
fn few_where<P: Probe>(bytes: &[u8], from: usize) -> usize
    requires within { from ≤ length bytes.now }
    ensures value { result ≡ from + prefix_len (λ b. not (P.passes b)) (drop from bytes.now) }
    ensures within { result ≤ length bytes.now }
{
    let mut at = from;
    while at < bytes.len() {
        if P::byte(bytes[at]) {
            return at;
        }
        at += 1;
    }
    at
}

/// The place of the first byte from `from` on that passes, or the length: 16 bytes at a time, and the last 16 once more.
#[inline(always)]
pub fn first_where<P: Probe>(bytes: &[u8], from: usize) -> usize
    requires within { from ≤ length bytes.now }
    ensures value { result ≡ from + prefix_len (λ b. not (P.passes b)) (drop from bytes.now) }
    ensures within { result ≤ length bytes.now }
{
    if bytes.len() < 16 {
        return few_where::<P>(bytes, from);
    }
    let mut at = from;
    while bytes.len() - at >= 16 {
        let run = run_behind(P::lanes(lanes_at(bytes, at)), 0);
        if run < 16 {
            return at + run;
        }
        at += 16;
    }
    let last = bytes.len() - 16;
    at + run_behind(P::lanes(lanes_at(bytes, last)), at - last)
}
