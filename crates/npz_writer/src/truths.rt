// Truths and null marks, a byte for each.
ghost use Rattle.std.specs.Prelude.{◌≡◌, ◌≤◌, ◌<◌, ◌-◌, false, length, map, slice_get, slice_index_or, slice_range, take, if◌then◌else◌, Some};
ghost use Rattle.std.specs.List.{range_with_len};
ghost use Rattle.npz_writer.specs.Arrays.{truth_byte};
ghost use Rattle.npz_writer.specs.Blocks.{unmarked};

use value_types::is_marked;

/// The byte of a truth.
#[inline(always)]
fn truth_byte(truth: bool) -> u8
    ensures { result ≡ truth_byte truth }
{
    if truth { 1 } else { 0 }
}

/// A truth, or False where it is null.
#[inline(always)]
fn unless_null(is_null: bool, truth: bool) -> bool
    ensures { result ≡ (if is_null then false else truth) }
{
    truth && !is_null
}

/// The truth of a row: False where it is null.
#[inline(always)]
fn truth_at(nulls: &[bool], truths: &[bool], row: usize) -> bool
    requires { row < length truths.now }
    ensures { slice_get (unmarked false nulls.now truths.now) row ≡ Some result }
{
    unless_null(is_marked(nulls, row), truths[row])
}

/// Puts the truths of the rows from `from` to before `to` in front of a block: False for one that is null.
pub(crate) fn put_truths(nulls: &[bool], truths: &[bool], from: usize, to: usize, block: &mut [u8])
    requires ordered { from ≤ to }
    requires within { to ≤ length truths.now }
    requires room { to - from ≤ length block.old }
    ensures { take (to - from) block.new ≡ map truth_byte (slice_range (unmarked false nulls.now truths.now) from to) }
{
    for row in from..to {
        block[row - from] = truth_byte(truth_at(nulls, truths, row));
    }
}

/// Puts the null marks of the rows from `from` to before `to` in front of a block.
pub(crate) fn put_marks(nulls: &[bool], from: usize, to: usize, block: &mut [u8])
    requires ordered { from ≤ to }
    requires room { to - from ≤ length block.old }
    ensures { take (to - from) block.new ≡ map (λ row. truth_byte (slice_index_or nulls.now row false)) (range_with_len from (to - from)) }
{
    for row in from..to {
        block[row - from] = truth_byte(is_marked(nulls, row));
    }
}
