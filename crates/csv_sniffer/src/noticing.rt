//! What is noticed beside what is found. It is seen in the rows that are sampled anyway.
ghost use Rattle.std.specs.Prelude.{◌≡◌, ◌<◌, ℕ, List, Some, IfOk, length, slice_get};
ghost use Rattle.std.specs.List.{list_any};
ghost use Rattle.byte_classes.specs.Fault.{has_byte};
ghost use Rattle.load_options.specs.Accepted.{IsAccepted};
ghost use Rattle.dialect_rank.specs.Sampled.{Span};
ghost use Rattle.dialect_rank.specs.Score.{score_rows};
ghost use Rattle.csv_sniffer.specs.Noticed.{are_like_comments, begins_with, comment_lines, has_fields, hash_count, idle_quote, is_hash_alone, lines_above, lines_before, noticed_in, other_delim_in};
ghost use Rattle.csv_sniffer.specs.Rows.{AreRows, row_texts};

use crate::found::Noticed;
use crate::sampled_rows::SampledRows;
use byte_classes::{Dialect, count_line_ends};
use csv_source::NoMemory;
use dialect_rank::{Score, may_hint, other_delim, scored_candidates};
use load_options::{Choice, Options};
use row_fields::Fields;
use std::alloc::Global;

/// Another delimiter under which rows would mostly have several fields. Only then are all candidates scored.
fn other_delim_in(
    alloc: Global,
    options: &Options,
    rows: &SampledRows,
    whole: bool,
    score: &Score,
) -> Result<Option<u8>, NoMemory>
    requires accepted { IsAccepted options.now }
    requires score { score.now ≡ score_rows rows.now.dialect (row_texts rows.now.sample.now rows.now.spans) }
    ensures { IfOk result (λ delim. delim ≡ other_delim_in options.now rows.now.sample.now whole rows.now.dialect rows.now.spans) }
{
    if !may_hint(options, score) {
        return Ok(None);
    }
    let scored = scored_candidates(alloc, options, rows.sample, whole)?;
    Ok(other_delim(options, rows.dialect.delim(), score, &scored))
}

/// Whether a byte is the delimiter, the quote or the escape.
fn has_byte(dialect: &Dialect, byte: u8) -> bool
    ensures { result ≡ has_byte dialect.now byte }
{
    byte == dialect.delim() || dialect.quote() == Some(byte) || dialect.escape() == Some(byte)
}

/// Whether some bytes begin with a byte.
#[inline(always)]
fn begins_with(wanted: u8, bytes: &[u8]) -> bool
    ensures { result ≡ begins_with wanted bytes.now }
{
    match bytes.first() {
        Some(byte) => *byte == wanted,
        None => false,
    }
}

/// How many rows begin with `#`.
fn hash_count(rows: &SampledRows) -> u64
    requires rows { AreRows rows.now.dialect rows.now.sample.now rows.now.spans }
    ensures { result ≡ hash_count (row_texts rows.now.sample.now rows.now.spans) }
{
    let mut count = 0;
    for row in 0..rows.spans.len() {
        let (from, to) = rows.spans.get(row);
        count += u64::from(begins_with(b'#', &rows.sample[from..to]));
    }
    count
}

/// Whether a row begins with `#` and has one field.
fn is_hash_alone(rows: &SampledRows, row: usize, fields: &mut Fields) -> Result<bool, NoMemory>
    requires rows { AreRows rows.now.dialect rows.now.sample.now rows.now.spans }
    requires within { row < length rows.now.spans }
    ensures { IfOk result (λ alone. (text : List ℕ) → slice_get (row_texts rows.now.sample.now rows.now.spans) row ≡ Some text → alone ≡ is_hash_alone rows.now.dialect text) }
{
    let bytes = rows.read(row, fields)?;
    Ok(begins_with(b'#', bytes) && fields.count() == 1)
}

/// Whether some row begins with `#` and has one field.
fn some_hash_alone(rows: &SampledRows, fields: &mut Fields) -> Result<bool, NoMemory>
    requires rows { AreRows rows.now.dialect rows.now.sample.now rows.now.spans }
    ensures { IfOk result (λ some. some ≡ list_any (is_hash_alone rows.now.dialect) (row_texts rows.now.sample.now rows.now.spans)) }
{
    for row in 0..rows.spans.len() {
        if is_hash_alone(rows, row, fields)? {
            return Ok(true);
        }
    }
    Ok(false)
}

/// Whether the rows that begin with `#`, so many, look like comment lines.
fn are_like_comments(
    alloc: Global,
    rows: &SampledRows,
    score: &Score,
    count: u64,
) -> Result<bool, NoMemory>
    requires rows { AreRows rows.now.dialect rows.now.sample.now rows.now.spans }
    requires score { score.now ≡ score_rows rows.now.dialect (row_texts rows.now.sample.now rows.now.spans) }
    requires count { count ≡ hash_count (row_texts rows.now.sample.now rows.now.spans) }
    ensures { IfOk result (λ alike. alike ≡ are_like_comments rows.now.dialect score.now.mode (row_texts rows.now.sample.now rows.now.spans)) }
{
    if score.mode >= 2 {
        return some_hash_alone(rows, &mut Fields::new(alloc));
    }
    Ok(count >= 2 && count < score.rows)
}

/// How many rows look like comment lines, where no comment byte is given and `#` is no byte of the dialect.
fn comment_lines(
    alloc: Global,
    options: &Options,
    rows: &SampledRows,
    score: &Score,
) -> Result<u64, NoMemory>
    requires rows { AreRows rows.now.dialect rows.now.sample.now rows.now.spans }
    requires score { score.now ≡ score_rows rows.now.dialect (row_texts rows.now.sample.now rows.now.spans) }
    ensures { IfOk result (λ lines. lines ≡ comment_lines options.now rows.now.dialect (row_texts rows.now.sample.now rows.now.spans)) }
{
    if options.comment.is_some() || has_byte(&rows.dialect, b'#') {
        return Ok(0);
    }
    let count = hash_count(rows);
    // Nearly all files have none, and then no row is read again.
    if count == 0 || !are_like_comments(alloc, rows, score, count)? {
        return Ok(0);
    }
    Ok(count)
}

/// The quote that is found, where it isn't `"` and no field is quoted by it.
fn idle_quote(options: &Options, dialect: &Dialect, score: &Score) -> Option<u8>
    ensures { result ≡ idle_quote options.now dialect.now score.now }
{
    let quote = dialect.quote();
    if matches!(options.quote, Choice::Detect) && quote != Some(b'"') && score.closed == 0 {
        quote
    } else {
        None
    }
}

/// Whether a row has so many fields.
fn has_fields(
    rows: &SampledRows,
    row: usize,
    count: u64,
    fields: &mut Fields,
) -> Result<bool, NoMemory>
    requires rows { AreRows rows.now.dialect rows.now.sample.now rows.now.spans }
    requires within { row < length rows.now.spans }
    ensures { IfOk result (λ has. (span : Span) → slice_get rows.now.spans row ≡ Some span → has ≡ has_fields rows.now.sample.now rows.now.dialect count span) }
{
    rows.read(row, fields)?;
    Ok(fields.count() as u64 == count)
}

/// How many physical lines end before a row.
fn lines_before(rows: &SampledRows, row: usize) -> u64
    requires rows { AreRows rows.now.dialect rows.now.sample.now rows.now.spans }
    requires within { row < length rows.now.spans }
    ensures { (span : Span) → slice_get rows.now.spans row ≡ Some span → result ≡ lines_before rows.now.sample.now span }
{
    let (from, _) = rows.spans.get(row);
    count_line_ends(&rows.sample[..from], None)
}

/// How many lines stand above the first row that has so many fields, where the first of all hasn't. Nearly always it has.
fn lines_above(rows: &SampledRows, mode: u64, fields: &mut Fields) -> Result<u64, NoMemory>
    requires rows { AreRows rows.now.dialect rows.now.sample.now rows.now.spans }
    ensures { IfOk result (λ lines. lines ≡ lines_above rows.now.sample.now rows.now.dialect mode rows.now.spans) }
{
    if rows.spans.len() == 0 || has_fields(rows, 0, mode, fields)? {
        return Ok(0);
    }
    for row in 1..rows.spans.len() {
        if has_fields(rows, row, mode, fields)? {
            return Ok(lines_before(rows, row));
        }
    }
    Ok(0)
}

/// What is noticed under the best dialect, whose rows and score these are, before there are types.
pub fn noticed(
    alloc: Global,
    options: &Options,
    rows: &SampledRows,
    whole: bool,
    score: &Score,
) -> Result<Noticed, NoMemory>
    requires accepted { IsAccepted options.now }
    requires rows { AreRows rows.now.dialect rows.now.sample.now rows.now.spans }
    requires score { score.now ≡ score_rows rows.now.dialect (row_texts rows.now.sample.now rows.now.spans) }
    ensures { IfOk result (λ n. n ≡ noticed_in options.now rows.now.sample.now whole rows.now.dialect rows.now.spans) }
{
    Ok(Noticed {
        other_delim: other_delim_in(alloc, options, rows, whole, score)?,
        comment_lines: comment_lines(alloc, options, rows, score)?,
        idle_quote: idle_quote(options, &rows.dialect, score),
        lines_above: lines_above(rows, score.mode, &mut Fields::new(alloc))?,
        zero_columns: 0,
    })
}
