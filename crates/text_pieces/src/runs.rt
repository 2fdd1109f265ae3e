// Runs of bytes that a writer finds by lanes.
ghost use Rattle.std.specs.Prelude.{◌≡◌, ◌≤◌, ℕ, Bool, List, drop, length, map, not};
ghost use Rattle.std.specs.List.{prefix_len};
ghost use lib.Lanes.{mask_l};

/// How many lanes, behind some of 16 that are passed over, stand before the first whose bit is set: all where none is.
#[inline(always)]
pub(crate) fn run_behind(found: u64, passed: usize) -> usize
    requires { passed ≤ 16 }
    ensures value { (test : ℕ → Bool) (lanes : List ℕ) → length lanes ≡ 16 → found ≡ mask_l (map test lanes) → result ≡ prefix_len (λ b. not (test b)) (drop passed lanes) }
    ensures most { result ≤ 64 }
{
    let behind = found >> passed;
    if behind == 0 {
        16 - passed
    } else {
        behind.trailing_zeros() as usize
    }
}
