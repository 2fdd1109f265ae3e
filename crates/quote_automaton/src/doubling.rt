//! Dialects in which quotes are doubled.
ghost use Rattle.byte_classes.specs.Dialect.{IsDialect};
ghost use Rattle.quote_automaton.specs.Automaton.{IsDoubled};

use byte_classes::Dialect;

/// The quote, where it is its own escape: a quote inside quotes is then written as two quotes.
#[inline(always)]
pub fn doubled_quote(dialect: &Dialect) -> Option<u8>
    ensures value { IsDoubled dialect.now result }
    ensures sound { IsDialect dialect.now }
{
    if dialect.quote() == dialect.escape() {
        dialect.quote()
    } else {
        None
    }
}
