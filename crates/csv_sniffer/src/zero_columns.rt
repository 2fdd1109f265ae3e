//! Columns of numbers that would lose leading zeros, by a look at the first rows.
ghost use Rattle.std.specs.Prelude.{◌≡◌, ℕ, ◌+◌, ◌<◌, ◌≤◌, ◌||◌, Bool, true, drop, take, IfOk, length, OnOk, slice_index_or};
ghost use lib.Lanes.{mask_l};
ghost use Rattle.row_fields.specs.Split.{fields_in};
ghost use Rattle.value_types.specs.OfType.{same_type};
ghost use Rattle.value_types.specs.declared.types.ColumnType.TheVariants.{Bigint, Varchar};
ghost use Rattle.csv_sniffer.specs.PossibleTypes.{column_value};
ghost use Rattle.csv_sniffer.specs.Rows.{AreRows, row_texts};
ghost use Rattle.csv_sniffer.specs.Sniffed.{behind_first_if};
ghost use Rattle.csv_sniffer.specs.ZeroColumns.{has_leading_zero, has_zero_at, zero_columns, zero_flags};

use crate::columns::{agrees, column_value};
use crate::of_type::is_bigint;
use crate::sampled_rows::SampledRows;
use csv_source::NoMemory;
use load_options::Options;
use row_fields::Fields;
use std::alloc::Global;
use value_types::ColumnType;

/// How many sampled rows are looked at, with the header: all of them would cost as much as to sniff does.
pub const ZERO_ROWS: usize = 50;

/// How many columns are, so that a word has a bit for each.
pub const ZERO_COLUMNS: usize = 64;

/// Whether a text begins with a zero and one more digit.
pub fn has_leading_zero(text: &[u8]) -> bool
    ensures { result ≡ has_leading_zero text.now }
{
    match text {
        [first, second, ..] => *first == b'0' && second.is_ascii_digit(),
        _ => false,
    }
}

/// The types of columns, and the options under which their values are read.
#[derive(Clone, Copy)]
struct TypedColumns<'a> {
    options: &'a Options,
    types: &'a [ColumnType],
}

/// Whether a column is one of numbers.
fn has_numbers(types: &[ColumnType], column: usize) -> bool
    ensures { result ≡ same_type (slice_index_or types.now column Varchar) Bigint }
{
    column < types.len() && is_bigint(types[column])
}

/// Whether a column is one of numbers, and its value in a row begins with a zero and one more digit.
#[inline(always)]
fn has_zero_at(columns: &TypedColumns, row: &[u8], fields: &Fields, column: usize) -> bool
    requires fits { length row.now ≡ fields.now.row_len }
    ensures { result ≡ has_zero_at columns.now.options.now columns.now.types.now (fields_in row.now fields.now) column }
{
    if !has_numbers(columns.types, column) {
        return false;
    }
    match column_value(columns.options, row, fields, column) {
        Some(text) => has_leading_zero(text),
        None => false,
    }
}

/// Marks the columns whose value in a row begins so.
fn mark_columns(flags: &mut [bool], columns: &TypedColumns, row: &[u8], fields: &Fields)
    requires fits { length row.now ≡ fields.now.row_len }
    ensures { (column : ℕ) (other : Bool) → column < length flags.old →
        slice_index_or flags.new column other
        ≡ (has_zero_at columns.now.options.now columns.now.types.now (fields_in row.now fields.now) column || slice_index_or flags.old column other) }
{
    for column in 0..flags.len() {
        flags[column] = has_zero_at(columns, row, fields, column) || flags[column];
    }
}

/// The same where the row agrees.
fn mark_row(
    flags: &mut [bool],
    columns: &TypedColumns,
    rows: &SampledRows,
    row: usize,
    fields: &mut Fields,
) -> Result<(), NoMemory>
    requires rows { AreRows rows.now.dialect rows.now.sample.now rows.now.spans }
    requires within { row < length rows.now.spans }
    requires few { row < ZERO_ROWS }
    requires fits { let texts = take ZERO_ROWS (row_texts rows.now.sample.now rows.now.spans) in
        flags.old ≡ zero_flags columns.now.options.now rows.now.dialect columns.now.types.now (drop (row + 1) texts) }
    ensures { let texts = take ZERO_ROWS (row_texts rows.now.sample.now rows.now.spans) in
        OnOk result (flags.new ≡ zero_flags columns.now.options.now rows.now.dialect columns.now.types.now (drop row texts)) }
{
    let bytes = rows.read(row, fields)?;
    if !agrees(fields, columns.types.len()) {
        return Ok(());
    }
    mark_columns(flags, columns, bytes, fields);
    Ok(())
}

/// Which of the first columns are marked by the first rows from one on.
fn zero_flags(
    alloc: Global,
    columns: &TypedColumns,
    rows: &SampledRows,
    first: usize,
) -> Result<Vec<bool>, NoMemory>
    requires rows { AreRows rows.now.dialect rows.now.sample.now rows.now.spans }
    requires some { first ≤ length rows.now.spans }
    requires few { first ≤ 1 }
    ensures { let texts = row_texts rows.now.sample.now rows.now.spans in
        IfOk result (λ flags. flags.items ≡ zero_flags columns.now.options.now rows.now.dialect columns.now.types.now (drop first (take ZERO_ROWS texts))) }
{
    let mut flags = vec![in alloc; false; columns.types.len().min(ZERO_COLUMNS)]?;
    let mut fields = Fields::new(alloc);
    for row in (first..rows.spans.len().min(ZERO_ROWS)).rev() {
        mark_row(&mut flags, columns, rows, row, &mut fields)?;
    }
    Ok(flags)
}

/// Flags as bits, of which the lowest is the first.
fn bits_of(flags: &[bool]) -> u64
    requires few { length flags.now ≤ 64 }
    ensures { result ≡ mask_l flags.now }
{
    let mut bits = 0;
    for place in (0..flags.len()).rev() {
        bits = 2 * bits + u64::from(flags[place]);
    }
    bits
}

/// Which of the first columns are of numbers that would lose leading zeros, as bits, by the first rows behind the header.
pub fn zero_columns(
    alloc: Global,
    options: &Options,
    types: &[ColumnType],
    rows: &SampledRows,
    header: bool,
) -> Result<u64, NoMemory>
    requires rows { AreRows rows.now.dialect rows.now.sample.now rows.now.spans }
    requires some { header ≡ true → 0 < length rows.now.spans }
    ensures { let texts = row_texts rows.now.sample.now rows.now.spans in
        IfOk result (λ bits. bits ≡ zero_columns options.now rows.now.dialect types.now (behind_first_if header (take ZERO_ROWS texts))) }
{
    let columns = TypedColumns { options, types };
    let flags = zero_flags(alloc, &columns, rows, usize::from(header))?;
    Ok(bits_of(&flags))
}
