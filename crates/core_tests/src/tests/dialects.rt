//! The dialects of the tests.
ghost use Rattle.std.specs.Prelude.{Some};
ghost use Rattle.byte_classes.specs.Dialect.{AreAscii};

use byte_classes::Dialect;
use std::process::Abort;

/// The dialect of these bytes.
pub fn dialect(rt: &impl Abort, delim: u8, quote: u8, escape: Option<u8>) -> Dialect
    requires within { AreAscii delim (Some quote) escape }
{
    let Ok(dialect) = Dialect::new(delim, Some(quote), escape) else {
        panic!(rt; "these bytes make a dialect");
    };
    dialect
}

/// A comma, and a double quote that is written twice in fields.
pub fn commas(rt: &impl Abort) -> Dialect {
    dialect(rt, b',', b'"', Some(b'"'))
}

/// The same with a backslash before quotes.
pub fn backslashes(rt: &impl Abort) -> Dialect {
    dialect(rt, b',', b'"', Some(b'\\'))
}

/// The dialect with comment lines.
pub fn commented(rt: &impl Abort, dialect: Dialect) -> Dialect {
    let Ok(dialect) = dialect.with_comment(b'#') else {
        panic!(rt; "this byte begins comments");
    };
    dialect
}
