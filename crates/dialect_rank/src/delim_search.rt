//! The delimiters that a sample doesn't have. Many candidates share a delimiter, so each is searched for once.
ghost use Rattle.std.specs.Prelude.{◌≡◌};
ghost use Rattle.dialect_rank.specs.Absent.{absent_delims_in, is_absent};

use crate::quote_search::is_absent;

/// Which of the delimiters that detection tries a sample doesn't have.
#[derive(Clone, Copy)]
pub struct AbsentDelims {
    pub comma: bool,
    pub bar: bool,
    pub semicolon: bool,
    pub tab: bool,
}

/// Searches a sample for the delimiters that detection tries.
pub fn absent_delims(sample: &[u8]) -> AbsentDelims
    ensures { result ≡ absent_delims_in sample.now }
{
    AbsentDelims {
        comma: is_absent(b',', sample),
        bar: is_absent(b'|', sample),
        semicolon: is_absent(b';', sample),
        tab: is_absent(b'\t', sample),
    }
}

/// Whether none of the bytes is this delimiter. Only one that detection doesn't try is searched for.
pub fn is_delim_absent(delim: u8, sample: &[u8], absent: AbsentDelims) -> bool
    requires known { absent ≡ absent_delims_in sample.now }
    ensures { result ≡ is_absent delim sample.now }
{
    match delim {
        b',' => absent.comma,
        b'|' => absent.bar,
        b';' => absent.semicolon,
        b'\t' => absent.tab,
        _ => is_absent(delim, sample),
    }
}
