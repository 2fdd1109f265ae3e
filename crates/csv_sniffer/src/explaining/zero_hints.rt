//! Columns of numbers that would lose leading zeros.
ghost use Rattle.std.specs.Prelude.{◌≡◌, ◌==◌, ◌++◌, flat_map, OnOk};
ghost use Rattle.std.specs.List.{list_any};
ghost use Rattle.csv_sniffer.specs.declared.explaining.entries.Entry.{Entry};
ghost use Rattle.csv_sniffer.specs.Hints.{loses_zeros, zero_hint};
ghost use Rattle.csv_sniffer.specs.ZeroColumns.{has_leading_zero};

use crate::explaining::entries::{ColumnSample, Entry};
use crate::explaining::hints::Hint;
use crate::of_type::is_bigint;
use crate::zero_columns::has_leading_zero;
use csv_source::{Bytes, NoMemory};
use std::alloc::Global;

/// Whether a comma is among the bytes.
fn has_comma(bytes: &[u8]) -> bool
    ensures { result ≡ list_any (λ b. b == 44) bytes.now }
{
    bytes.iter().any(|byte| *byte == b',')
}

/// Whether some value begins with a zero and one more digit.
fn some_leading_zero(entries: &[Entry]) -> bool
    ensures { result ≡ list_any (λ (e : Entry). has_leading_zero e.value) entries.now }
{
    entries
        .iter()
        .any(|entry| has_leading_zero(entry.value.as_slice()))
}

/// Whether a column of numbers has one with a leading zero, and a name that can stand in a list.
fn loses_zeros(column: &ColumnSample) -> bool
    ensures { result ≡ loses_zeros column.now }
{
    column.found
        && is_bigint(column.ty)
        && !has_comma(column.name.as_slice())
        && some_leading_zero(column.entries.as_slice())
}

/// Appends a hint for a column, where it is one of numbers with leading zeros.
fn push_zero_hint(
    into: &mut Vec<Hint>,
    alloc: Global,
    column: &ColumnSample,
) -> Result<(), NoMemory>
    ensures { OnOk result (into.new.items ≡ into.old.items ++ zero_hint column.now) }
{
    if loses_zeros(column) {
        into.push(Hint::Varchar(Bytes::copy_of(alloc, column.name.as_slice())?))?;
    }
    Ok(())
}

/// Appends a hint for each column of numbers with leading zeros.
pub fn push_zero_hints(
    into: &mut Vec<Hint>,
    alloc: Global,
    columns: &[ColumnSample],
) -> Result<(), NoMemory>
    ensures { OnOk result (into.new.items ≡ into.old.items ++ flat_map zero_hint columns.now) }
{
    for column in columns {
        push_zero_hint(into, alloc, column)?;
    }
    Ok(())
}
