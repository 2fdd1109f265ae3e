//! Words that may be worth a try.
ghost use Rattle.std.specs.Prelude.{◌≡◌, ◌++◌, IfOk, OnOk};
ghost use Rattle.csv_sniffer.specs.Hints.{delim_hints, hint_if, hints_of, may_skip};

use crate::explaining::entries::ColumnSample;
use crate::explaining::null_hints::push_null_hints;
use crate::explaining::separator_line::tells_delimiter;
use crate::explaining::zero_hints::push_zero_hints;
use crate::found::Sniffed;
use csv_source::{Bytes, NoMemory};
use load_options::Options;
use std::alloc::Global;

/// A word that may be worth a try.
#[derive(Drop)]
pub enum Hint {
    /// `delim=` with this byte: rows would have several fields.
    Delim(u8),
    /// `comment=#`: some rows look like comment lines.
    Comment,
    /// `skip=1`: the first line tells the delimiter to a spreadsheet.
    Skip,
    /// `quote=`: no field is quoted by the quote that was found.
    Quote,
    /// `column_types=NAME:VARCHAR` for the column of this name: a number in it has a leading zero.
    Varchar(Bytes),
    /// `nulls=,TEXT` with this text: a column of texts would be of another type.
    NullText(Bytes),
}

/// Whether no line is passed over, and the first one tells the delimiter to a spreadsheet.
fn may_skip(options: &Options, sample: &[u8]) -> bool
    ensures { result ≡ may_skip options.now sample.now }
{
    options.skip == 0 && tells_delimiter(sample)
}

/// Appends the hint at another delimiter, where there is one.
fn push_delim_hint(into: &mut Vec<Hint>, delim: Option<u8>) -> Result<(), NoMemory>
    ensures { OnOk result (into.new.items ≡ into.old.items ++ delim_hints delim) }
{
    if let Some(delim) = delim {
        into.push(Hint::Delim(delim))?;
    }
    Ok(())
}

/// Appends a hint, where it comes.
fn push_hint_if(into: &mut Vec<Hint>, comes: bool, hint: Hint) -> Result<(), NoMemory>
    ensures { OnOk result (into.new.items ≡ into.old.items ++ hint_if comes hint) }
{
    if comes {
        into.push(hint)?;
    }
    Ok(())
}

/// All hints.
pub fn hints(
    alloc: Global,
    options: &Options,
    sniffed: &Sniffed,
    sample: &[u8],
    columns: &[ColumnSample],
) -> Result<Vec<Hint>, NoMemory>
    ensures { IfOk result (λ hints. hints.items ≡ hints_of options.now sniffed.now sample.now columns.now) }
{
    let mut hints = Vec::new(alloc);
    let noticed = sniffed.noticed;
    push_delim_hint(&mut hints, noticed.other_delim)?;
    push_hint_if(&mut hints, noticed.comment_lines > 0, Hint::Comment)?;
    push_hint_if(&mut hints, may_skip(options, sample), Hint::Skip)?;
    push_hint_if(&mut hints, noticed.idle_quote.is_some(), Hint::Quote)?;
    push_zero_hints(&mut hints, alloc, columns)?;
    push_null_hints(&mut hints, alloc, options, columns)?;
    Ok(hints)
}
