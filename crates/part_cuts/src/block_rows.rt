//! Rows of a block of 64 bytes that is read at once.
ghost use Rattle.std.specs.Prelude.{◌≡◌, ℕ, ◌<◌, ◌==◌, ◌&&◌, ◌||◌, not, IfSome, if◌then◌else◌};
ghost use Rattle.std.specs.Int.{bit_at};
ghost use Rattle.std.specs.Int.RustNames.{count_ones};
ghost use Rattle.quote_automaton.specs.Automaton.{state_after};
ghost use Rattle.quote_automaton.specs.Counted.{is_set, state_of};
ghost use Rattle.part_cuts.specs.Passed.{rows_begun};

use crate::cut_rule::CutRule;
use quote_automaton::{Place, read_block};

/// How many rows that count begin in a block, and what is known behind it.
#[derive(Clone, Copy)]
pub(crate) struct BlockRows {
    pub(crate) rows: u64,
    pub(crate) next: Place,
}

/// How many bits are set.
#[inline(always)]
fn ones(mask: u64) -> u64
    ensures { result ≡ count_ones mask }
{
    u64::from(mask.count_ones())
}

/// Which of the rows that begin in a block count.
#[inline(always)]
fn that_count(columns: u64, begins: u64, line_ends: u64) -> u64
    ensures { (i : ℕ) → i < 64 → bit_at result i ≡ (if is_set begins i && (not (is_set line_ends i) || columns == 1) then 1 else 0) }
{
    if columns == 1 {
        begins
    } else {
        begins & !line_ends
    }
}

/// The rows of a block whose first byte stands at this place, where no byte in it is out of its place.
#[inline(always)]
pub(crate) fn rows_in_block(rule: &CutRule, block: &[u8; 64], place: Place) -> Option<BlockRows>
    ensures rows { IfSome result (λ b. b.rows ≡ rows_begun rule.now.dialect rule.now.columns (state_of rule.now.dialect place) block.now) }
    ensures next { IfSome result (λ b. state_after rule.now.dialect (state_of rule.now.dialect place) block.now ≡ state_of rule.now.dialect b.next) }
{
    let told = read_block(&rule.dialect, block, place)?;
    let counting = that_count(rule.columns, told.begins, told.line_ends);
    Some(BlockRows {
        rows: ones(counting),
        next: told.next,
    })
}
