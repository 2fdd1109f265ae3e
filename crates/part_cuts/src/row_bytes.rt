//! Bytes at which rows begin.
ghost use Rattle.std.specs.Prelude.{◌≡◌};
ghost use Rattle.part_cuts.specs.Cut.{begins_filled, counts_row};

use byte_classes::Class;
use quote_automaton::State;

/// Whether a row of at least one byte begins at a byte of this class that is read in this state.
#[inline(always)]
pub(crate) fn begins_filled(state: State, class: Class) -> bool
    ensures { result ≡ begins_filled state class }
{
    match (state, class) {
        (_, Class::Lf | Class::Cr | Class::Comment) => false,
        (State::RowStart | State::CrSeen, _) => true,
        (_, _) => false,
    }
}

/// Whether a row that counts begins there.
#[inline(always)]
pub(crate) fn counts_row(columns: u64, state: State, class: Class) -> bool
    ensures { result ≡ counts_row columns state class }
{
    match (state, class) {
        (State::RowStart, Class::Lf) | (State::RowStart | State::CrSeen, Class::Cr) => columns == 1,
        (_, _) => begins_filled(state, class),
    }
}
