//! A sample that was searched for quotes and delimiters.
ghost use Rattle.std.specs.Prelude.{◌≡◌};
ghost use Rattle.std.specs.List.{position_or_len};
ghost use Rattle.std.specs.Option.{ForSome};
ghost use Rattle.dialect_rank.specs.Absent.{absent_delims_in, absent_in};
ghost use Rattle.dialect_rank.specs.Alike.{quotes_alike, reads_alike, separates_alike};

use crate::delim_search::{AbsentDelims, absent_delims, is_delim_absent};
use crate::lists::Dialects;
use crate::quote_search::{AbsentQuotes, absent_quotes, lacks_quote};
use byte_classes::Dialect;

/// A sample with what is known before its rows are read, so that it is searched once and not for each candidate.
#[derive(Clone, Copy)]
pub struct SearchedSample<'a> {
    pub bytes: &'a [u8],
    /// Whether the input ends where the sample ends.
    pub whole: bool,
    /// The most rows that are taken.
    pub sample_size: u64,
    pub absent: AbsentQuotes,
    /// Once they are asked for: a clean file with commas is sniffed without.
    delims: Option<AbsentDelims>,
    ghost known: { absent ≡ absent_in bytes.now },
    ghost searched: { ForSome delims (λ found. found ≡ absent_delims_in bytes.now) },
}

/// Whether two dialects quote a sample alike: in the same way, or by quotes that it doesn't have.
fn quotes_alike(dialect: &Dialect, other: &Dialect, sample: &SearchedSample<'_>) -> bool
    ensures { result ≡ quotes_alike sample.now.bytes.now dialect.now other.now }
{
    (dialect.quote() == other.quote() && dialect.escape() == other.escape())
        || (lacks_quote(dialect, sample.bytes, sample.absent)
            && lacks_quote(other, sample.bytes, sample.absent))
}

impl<'a> SearchedSample<'a> {
    /// Searches a sample for quotes.
    pub fn new(bytes: &'a [u8], whole: bool, sample_size: u64) -> SearchedSample<'a>
        ensures bytes { result.bytes.now ≡ bytes.now }
        ensures whole { result.whole ≡ whole }
        ensures size { result.sample_size ≡ sample_size }
    {
        SearchedSample {
            bytes,
            whole,
            sample_size,
            absent: absent_quotes(bytes),
            delims: None,
        }
    }

    /// Searches the sample for delimiters, the first time.
    fn absent_delims(&mut self) -> AbsentDelims
        ensures value { result ≡ absent_delims_in self.old.bytes.now }
        ensures bytes { self.new.bytes.now ≡ self.old.bytes.now }
        ensures whole { self.new.whole ≡ self.old.whole }
        ensures size { self.new.sample_size ≡ self.old.sample_size }
    {
        if let Some(found) = self.delims {
            return found;
        }
        let found = absent_delims(self.bytes);
        self.delims = Some(found);
        found
    }

    /// Whether two dialects separate the fields of the sample alike: by the same delimiter, or by two that it doesn't have.
    fn separates_alike(&mut self, dialect: &Dialect, other: &Dialect) -> bool
        ensures value { result ≡ separates_alike self.old.bytes.now dialect.now other.now }
        ensures bytes { self.new.bytes.now ≡ self.old.bytes.now }
        ensures whole { self.new.whole ≡ self.old.whole }
        ensures size { self.new.sample_size ≡ self.old.sample_size }
    {
        if dialect.delim() == other.delim() {
            return true;
        }
        let absent = self.absent_delims();
        is_delim_absent(dialect.delim(), self.bytes, absent)
            && is_delim_absent(other.delim(), self.bytes, absent)
    }

    /// Whether two dialects read the sample alike, so that its rows, their fields and flaws are the same.
    pub fn reads_alike(&mut self, dialect: &Dialect, other: &Dialect) -> bool
        ensures value { result ≡ reads_alike self.old.bytes.now dialect.now other.now }
        ensures bytes { self.new.bytes.now ≡ self.old.bytes.now }
        ensures whole { self.new.whole ≡ self.old.whole }
        ensures size { self.new.sample_size ≡ self.old.sample_size }
    {
        dialect.comment() == other.comment()
            && self.separates_alike(dialect, other)
            && quotes_alike(dialect, other, self)
    }

    /// The index of the first candidate that reads the sample as a dialect does, or their number.
    pub fn first_alike(&mut self, candidates: &Dialects, dialect: &Dialect) -> usize
        ensures value { result ≡ position_or_len (λ other. reads_alike self.old.bytes.now other dialect.now) candidates.now }
        ensures bytes { self.new.bytes.now ≡ self.old.bytes.now }
        ensures whole { self.new.whole ≡ self.old.whole }
        ensures size { self.new.sample_size ≡ self.old.sample_size }
    {
        for index in 0..candidates.len() {
            if self.reads_alike(&candidates.get(index), dialect) {
                return index;
            }
        }
        candidates.len()
    }
}
