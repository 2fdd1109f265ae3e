//! Texts that would free columns of texts, were they null.
ghost use Rattle.std.specs.Prelude.{◌≡◌, ◌++◌, OnOk};
ghost use Rattle.std.specs.List.{list_any};
ghost use Rattle.csv_sniffer.specs.Hints.{is_freed, is_such_null, may_name_nulls, null_hint, null_hints, type_beside};

use crate::explaining::entries::{ColumnSample, Entry};
use crate::explaining::hints::Hint;
use crate::of_type::is_varchar;
use csv_source::{Bytes, NoMemory};
use load_options::Options;
use std::alloc::Global;
use value_types::{ColumnType, PossibleTypes};

/// Whether a value would be null, were this text one that stands for null.
fn is_such_null(options: &Options, text: &[u8], entry: &Entry) -> bool
    ensures { result ≡ is_such_null options.now text.now entry.now }
{
    entry.value.as_slice() == text && (!entry.quoted || options.allow_quoted_nulls)
}

/// The type that a column's values would have, were this text one that stands for null.
fn type_beside(options: &Options, text: &[u8], entries: &[Entry]) -> ColumnType
    ensures { result ≡ type_beside options.now text.now entries.now }
{
    let mut possible = PossibleTypes::all();
    for place in (0..entries.len()).rev() {
        let entry = &entries[place];
        if !is_such_null(options, text, entry) {
            possible.narrow(entry.value.as_slice());
        }
    }
    possible.first()
}

/// Whether a column of texts would be of another type, were this text one that stands for null.
fn is_freed(options: &Options, text: &[u8], column: &ColumnSample) -> bool
    ensures { result ≡ is_freed options.now text.now column.now }
{
    column.found
        && is_varchar(column.ty)
        && !is_varchar(type_beside(options, text, column.entries.as_slice()))
}

/// Whether some column of texts would be of another type, were this text one that stands for null.
fn some_freed(options: &Options, text: &[u8], columns: &[ColumnSample]) -> bool
    ensures { result ≡ list_any (is_freed options.now text.now) columns.now }
{
    columns.iter().any(|column| is_freed(options, text, column))
}

/// Appends a hint for a text, where some column would be of another type.
fn push_null_hint(
    into: &mut Vec<Hint>,
    alloc: Global,
    options: &Options,
    columns: &[ColumnSample],
    text: &[u8],
) -> Result<(), NoMemory>
    ensures { OnOk result (into.new.items ≡ into.old.items ++ null_hint options.now columns.now text.now) }
{
    if some_freed(options, text, columns) {
        into.push(Hint::NullText(Bytes::copy_of(alloc, text)?))?;
    }
    Ok(())
}

/// Whether no text that stands for null is given but the empty one.
fn may_name_nulls(options: &Options) -> bool
    ensures { result ≡ may_name_nulls options.now }
{
    options.nullstr.as_slice().is_empty() && options.nulls.len() == 0
}

/// Appends a hint for each text that would free a column of texts, where none is given.
pub fn push_null_hints(
    into: &mut Vec<Hint>,
    alloc: Global,
    options: &Options,
    columns: &[ColumnSample],
) -> Result<(), NoMemory>
    ensures { OnOk result (into.new.items ≡ into.old.items ++ null_hints options.now columns.now) }
{
    if !may_name_nulls(options) {
        return Ok(());
    }
    push_null_hint(into, alloc, options, columns, b"NA")?;
    push_null_hint(into, alloc, options, columns, b"N/A")?;
    push_null_hint(into, alloc, options, columns, b"NULL")?;
    push_null_hint(into, alloc, options, columns, b"null")?;
    push_null_hint(into, alloc, options, columns, b"-")?;
    push_null_hint(into, alloc, options, columns, b"\\N")?;
    push_null_hint(into, alloc, options, columns, b"None")?;
    push_null_hint(into, alloc, options, columns, b"NaN")
}
