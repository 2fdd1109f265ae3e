//! The first cut of some bytes.
ghost use Rattle.std.specs.Prelude.{◌≡◌, ◌≤◌, ◌<◌, length, take, drop, true};
ghost use Rattle.quote_automaton.specs.Automaton.{state_after};
ghost use Rattle.part_cuts.specs.Cut.{is_cut};
ghost use Rattle.part_cuts.specs.NoCut.{NoCut};

use crate::row_bytes::begins_filled;
use byte_classes::{Dialect, class_of, has_byte_order_mark};
use quote_automaton::{State, step};

/// Whether bytes may begin a part, whose first one is read in this state.
#[inline(always)]
fn is_cut(dialect: &Dialect, state: State, bytes: &[u8]) -> bool
    ensures { result ≡ is_cut dialect.now state bytes.now }
{
    match bytes.first() {
        Some(byte) => begins_filled(state, class_of(dialect, *byte)) && !has_byte_order_mark(bytes),
        None => false,
    }
}

/// The place of the first cut among the first `count` bytes, which are read from this state, or the count.
pub(crate) fn first_cut(dialect: &Dialect, state: State, bytes: &[u8], count: usize) -> usize
    requires within { count ≤ length bytes.now }
    ensures high { result ≤ count }
    ensures none { NoCut dialect.now state (take result bytes.now) (drop result bytes.now) }
    ensures cut { result < count → is_cut dialect.now (state_after dialect.now state (take result bytes.now)) (drop result bytes.now) ≡ true }
{
    let mut state = state;
    let mut at = 0;
    while at < count {
        if is_cut(dialect, state, &bytes[at..]) {
            return at;
        }
        state = step(dialect, state, bytes[at]);
        at += 1;
    }
    at
}
