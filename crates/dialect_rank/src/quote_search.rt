//! The quotes that a sample doesn't have. Many candidates share a quote, so each is searched for once.
ghost use Rattle.std.specs.Prelude.{◌≡◌};
ghost use Rattle.dialect_rank.specs.Absent.{absent_in, is_absent, lacks};

use byte_classes::{Dialect, next_byte};

/// Which of the quotes that detection tries a sample doesn't have.
#[derive(Clone, Copy)]
pub struct AbsentQuotes {
    pub double: bool,
    pub single: bool,
}

/// Whether none of the bytes is this one.
pub(crate) fn is_absent(byte: u8, sample: &[u8]) -> bool
    ensures { result ≡ is_absent byte sample.now }
{
    next_byte(byte, sample, 0) == sample.len()
}

/// Searches a sample for the quotes that detection tries.
pub fn absent_quotes(sample: &[u8]) -> AbsentQuotes
    ensures { result ≡ absent_in sample.now }
{
    AbsentQuotes {
        double: is_absent(b'"', sample),
        single: is_absent(b'\'', sample),
    }
}

/// Whether none of the bytes is this quote. Only one that detection doesn't try is searched for.
fn is_quote_absent(quote: u8, sample: &[u8], absent: AbsentQuotes) -> bool
    requires known { absent ≡ absent_in sample.now }
    ensures { result ≡ is_absent quote sample.now }
{
    match quote {
        b'"' => absent.double,
        b'\'' => absent.single,
        _ => is_absent(quote, sample),
    }
}

/// Whether no field can be quoted: a dialect has no quote, or it is none of the bytes.
pub(crate) fn lacks_quote(dialect: &Dialect, sample: &[u8], absent: AbsentQuotes) -> bool
    requires known { absent ≡ absent_in sample.now }
    ensures { result ≡ lacks sample.now dialect.now.quote }
{
    match dialect.quote() {
        Some(quote) => is_quote_absent(quote, sample, absent),
        None => true,
    }
}
