//! The text of a field goes into its column as it is found: between quotes run by run, since a doubled quote stands for one.
ghost use Rattle.std.specs.Prelude.{◌≡◌, ◌≤◌, ◌<◌, ◌+◌, ◌++◌, ◌∷◌, ◌==◌, [], false, true, length, IfOk, IfSome, None, OnOk, Some, slice_get, slice_index, slice_range};
ghost use Rattle.byte_classes.specs.Dialect.{is_byte};
ghost use Rattle.byte_classes.specs.Places.{first_place};
ghost use Rattle.quote_automaton.specs.Automaton.{IsDoubling};
ghost use Rattle.value_types.specs.declared.types.ColumnType.TheVariants.{Varchar};
ghost use Rattle.range_scan.specs.FastRows.{HoldsFields, IsFieldPushed, KeepsRows, text_cell};

use crate::context::Context;
use byte_classes::{Dialect, next_byte, next_special};
use column_store::Chunk;
use csv_source::NoMemory;
use quote_automaton::doubled_quote;
use reject_book::is_null;
use row_fields::is_doubled;
use value_types::Cell;

/// The bytes from one place to another.
#[inline(always)]
fn run(bytes: &[u8], from: usize, end: usize) -> &[u8]
    requires ordered { from ≤ end }
    requires within { end ≤ length bytes.now }
    ensures { result.now ≡ slice_range bytes.now from end }
{
    &bytes[from..end]
}

/// Appends a text, or null where it stands for null.
#[inline(always)]
fn push_value(
    chunk: &mut Chunk,
    context: &Context,
    quoted: bool,
    text: &[u8],
) -> Result<(), NoMemory>
    requires next { slice_get chunk.old.types (length chunk.old.unfinished) ≡ Some Varchar }
    ensures ok { OnOk result (chunk.new ≡ record chunk.old { unfinished = chunk.old.unfinished ++ text_cell context.now.schema quoted text.now ∷ [] }) }
{
    if is_null(&context.schema, quoted, text) {
        chunk.push_cell(Cell::Null)?;
        return Ok(());
    }
    chunk.push_text(text)?;
    Ok(())
}

/// Appends the text of a field that begins without a quote.
#[inline(always)]
fn push_bare(
    chunk: &mut Chunk,
    context: &Context,
    bytes: &[u8],
    from: usize,
) -> Result<Option<usize>, NoMemory>
    requires next { slice_get chunk.old.types (length chunk.old.unfinished) ≡ Some Varchar }
    requires within { from < length bytes.now }
    requires bare { is_byte context.now.dialect.quote (slice_index bytes.now from) ≡ false }
    ensures at { IfOk result (λ found. IfSome found (IsFieldPushed context.now Varchar bytes.now from chunk.old chunk.new)) }
    ensures none { IfOk result (λ found. found ≡ None → KeepsRows chunk.old chunk.new) }
{
    let end = next_special(&context.dialect, bytes, from, false);
    if end == bytes.len() {
        return Ok(None);
    }
    push_value(chunk, context, false, run(bytes, from, end))?;
    Ok(Some(end))
}

/// Appends the text between quotes of which the first one inside, at `first`, is doubled. Each run behind a doubled quote
/// begins with the second of the two.
#[inline(always)]
fn push_doubled(
    chunk: &mut Chunk,
    context: &Context,
    bytes: &[u8],
    from: usize,
    first: usize,
) -> Result<Option<usize>, NoMemory>
    requires holds { HoldsFields context.now }
    requires next { slice_get chunk.old.types (length chunk.old.unfinished) ≡ Some Varchar }
    requires within { from < length bytes.now }
    requires doubles { IsDoubling context.now.dialect (slice_index bytes.now from) }
    requires first { first ≡ first_place (λ r. slice_index bytes.now r == slice_index bytes.now from) (from + 1) bytes.now }
    requires doubled { (first + 1 < length bytes.now) × (slice_index bytes.now (first + 1) ≡ slice_index bytes.now from) }
    ensures at { IfOk result (λ found. IfSome found (IsFieldPushed context.now Varchar bytes.now from chunk.old chunk.new)) }
    ensures none { IfOk result (λ found. found ≡ None → KeepsRows chunk.old chunk.new) }
{
    let quote = bytes[from];
    let mut at = first;
    chunk.push_text(run(bytes, from + 1, at))?;
    'quotes: while is_doubled(quote, bytes, at) {
        let second = at + 1;
        at = next_byte(quote, bytes, at + 2);
        chunk.extend_text(run(bytes, second, at))?;
    }
    if bytes.len() - at <= 1 {
        return Ok(None);
    }
    Ok(Some(at + 1))
}

/// Appends the text of the field whose opening quote stands at a place, where quotes are doubled. That the field ends behind
/// the closing quote the caller sees.
#[inline(always)]
fn push_quoted(
    chunk: &mut Chunk,
    context: &Context,
    bytes: &[u8],
    from: usize,
) -> Result<Option<usize>, NoMemory>
    requires holds { HoldsFields context.now }
    requires next { slice_get chunk.old.types (length chunk.old.unfinished) ≡ Some Varchar }
    requires within { from < length bytes.now }
    requires doubles { IsDoubling context.now.dialect (slice_index bytes.now from) }
    ensures at { IfOk result (λ found. IfSome found (IsFieldPushed context.now Varchar bytes.now from chunk.old chunk.new)) }
    ensures none { IfOk result (λ found. found ≡ None → KeepsRows chunk.old chunk.new) }
{
    let quote = bytes[from];
    let at = next_byte(quote, bytes, from + 1);
    if bytes.len() - at <= 1 {
        return Ok(None);
    }
    if bytes[at + 1] == quote {
        return push_doubled(chunk, context, bytes, from, at);
    }
    push_value(chunk, context, true, run(bytes, from + 1, at))?;
    Ok(Some(at + 1))
}

/// Whether a byte is the quote.
#[inline(always)]
pub fn is_quote(dialect: &Dialect, byte: u8) -> bool
    ensures yes { result ≡ true → dialect.now.quote ≡ Some byte }
    ensures no { result ≡ false → is_byte dialect.now.quote byte ≡ false }
{
    dialect.quote() == Some(byte)
}

/// Appends the text of the field that begins at a place, and answers where the field ends, if a delimiter or a line end
/// stands there. None also where the bytes end with it, or where its quotes aren't doubled.
#[inline(always)]
pub fn push_text(
    chunk: &mut Chunk,
    context: &Context,
    bytes: &[u8],
    from: usize,
) -> Result<Option<usize>, NoMemory>
    requires holds { HoldsFields context.now }
    requires next { slice_get chunk.old.types (length chunk.old.unfinished) ≡ Some Varchar }
    requires within { from ≤ length bytes.now }
    ensures at { IfOk result (λ found. IfSome found (IsFieldPushed context.now Varchar bytes.now from chunk.old chunk.new)) }
    ensures none { IfOk result (λ found. found ≡ None → KeepsRows chunk.old chunk.new) }
{
    if from == bytes.len() {
        return Ok(None);
    }
    if !is_quote(&context.dialect, bytes[from]) {
        return push_bare(chunk, context, bytes, from);
    }
    match doubled_quote(&context.dialect) {
        Some(_) => push_quoted(chunk, context, bytes, from),
        None => Ok(None),
    }
}
