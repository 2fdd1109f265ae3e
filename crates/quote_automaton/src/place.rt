//! Places whose state is known by counting quotes.
ghost use Rattle.std.specs.Prelude.{◌≡◌, IfSome};
ghost use Rattle.quote_automaton.specs.Counted.{state_of};

use crate::state::State;
use byte_classes::{Class, Dialect, class_of};

/// What is known behind a byte: whether the next one stands between quotes, and the byte.
#[derive(Clone, Copy)]
pub struct Place {
    pub inside: bool,
    pub last: u8,
}

/// A byte that has no meaning in any dialect.
const PLAIN: u8 = 255;

/// The place whose state this is, where counting gives it.
#[inline(always)]
pub fn place_of(dialect: &Dialect, state: State) -> Option<Place>
    ensures { IfSome result (λ place. state_of dialect.now place ≡ state) }
{
    let quote = dialect.quote();
    let (inside, last) = match state {
        State::RowStart => (false, b'\n'),
        State::CrSeen => (false, b'\r'),
        State::FieldStart => (false, dialect.delim()),
        State::Plain => (false, PLAIN),
        State::Quoted => (true, PLAIN),
        State::QuoteSeen => (false, quote?),
        State::Escape | State::Broken | State::Comment => return None,
    };
    Some(Place { inside, last })
}

/// The state at a place.
#[inline(always)]
pub fn state_of(dialect: &Dialect, place: Place) -> State
    ensures { result ≡ state_of dialect.now place }
{
    if place.inside {
        return State::Quoted;
    }
    match class_of(dialect, place.last) {
        Class::Lf => State::RowStart,
        Class::Cr => State::CrSeen,
        Class::Delim => State::FieldStart,
        Class::Quote => State::QuoteSeen,
        Class::Escape | Class::Comment | Class::Other => State::Plain,
    }
}
