//! The state in which a range of a window is read first, and whether it is read again.
ghost use Rattle.std.specs.Prelude.{◌≡◌};
ghost use Rattle.range_guess.specs.Rescans.{is_again};
ghost use Rattle.range_guess.specs.Span.{IsSpanOf, guess_of, opening_in};

use crate::cutting::GROUP_LEN;
use crate::guessing::guess;
use crate::span::Span;
use byte_classes::{Dialect, byte_before};
use quote_automaton::State;

/// The guess of the state in which a range opens, by its own bytes and the byte before it.
pub fn guess_of(dialect: &Dialect, bytes: &[u8], span: &Span) -> State
    requires { IsSpanOf span.now bytes.now }
    ensures { result ≡ guess_of dialect.now bytes.now span.now }
{
    guess(
        dialect,
        &bytes[span.from..span.to],
        byte_before(bytes, span.from),
    )
}

/// The state in which a range counts as read first: where the one before it ends for the first of a group, and else its guess.
pub fn opening_in(dialect: &Dialect, bytes: &[u8], span: &Span, end: State) -> State
    requires { IsSpanOf span.now bytes.now }
    ensures { result ≡ opening_in dialect.now bytes.now span.now end }
{
    if span.number % GROUP_LEN == 0 {
        return end;
    }
    guess_of(dialect, bytes, span)
}

/// Whether a range that was read from a state first is read again, since it opens in another one.
pub fn is_again(first: State, opened: State) -> bool
    ensures { result ≡ is_again first opened }
{
    first != opened
}
