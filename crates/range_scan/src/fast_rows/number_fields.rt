//! A row of numbers of which some are empty or stand between quotes is found and cast by one look at its bytes.
ghost use Rattle.std.specs.Prelude.{◌≡◌, ◌≤◌, ◌<◌, ◌+◌, false, length, IfOk, IfSome, None, Some, slice_get, slice_index};
ghost use Rattle.quote_automaton.specs.Automaton.{IsDoubling};
ghost use Rattle.quote_automaton.specs.Rows.{begins_comment};
ghost use Rattle.value_types.specs.declared.types.ColumnType.TheVariants.{Bigint};
ghost use Rattle.range_scan.specs.FastRows.{HasFields, HoldsNumbers, IsFastRow, IsFieldPushed, IsNumberAt, KeepsRows};

use super::fields::{push_empty, row_end};
use super::texts::is_quote;
use crate::context::Context;
use column_store::Chunk;
use csv_source::NoMemory;
use quote_automaton::doubled_quote;
use value_types::{FrontNumber, bigint_front};

/// The plain number that begins at a place.
#[inline(always)]
pub fn number_at(bytes: &[u8], from: usize) -> Option<FrontNumber>
    requires within { from ≤ length bytes.now }
    ensures { IfSome result (IsNumberAt bytes.now from) }
{
    bigint_front(bytes, from)
}

/// The plain number between the quotes of which the first one stands at a place, if bytes follow the closing one.
#[inline(always)]
fn quoted_number(bytes: &[u8], from: usize) -> Option<FrontNumber>
    requires within { from < length bytes.now }
    ensures value { IfSome result (IsNumberAt bytes.now (from + 1)) }
    ensures closed { IfSome result (λ front. (slice_index bytes.now front.end ≡ slice_index bytes.now from) × (front.end + 1 < length bytes.now)) }
{
    let front = number_at(bytes, from + 1)?;
    if bytes[front.end] == bytes[from] && bytes.len() - front.end > 1 {
        Some(front)
    } else {
        None
    }
}

/// Appends the plain number between the quotes of which the first one stands at a place, where quotes are doubled.
#[inline(always)]
fn push_quoted_number(
    chunk: &mut Chunk,
    context: &Context,
    bytes: &[u8],
    from: usize,
) -> Result<Option<usize>, NoMemory>
    requires holds { HoldsNumbers context.now }
    requires types { chunk.old.types ≡ context.now.schema.types }
    requires next { slice_get chunk.old.types (length chunk.old.unfinished) ≡ Some Bigint }
    requires within { from < length bytes.now }
    requires doubles { IsDoubling context.now.dialect (slice_index bytes.now from) }
    ensures at { IfOk result (λ found. IfSome found (IsFieldPushed context.now Bigint bytes.now from chunk.old chunk.new)) }
    ensures none { IfOk result (λ found. found ≡ None → KeepsRows chunk.old chunk.new) }
{
    let Some(front) = quoted_number(bytes, from) else {
        return Ok(None);
    };
    chunk.push_bigint(front.number)?;
    Ok(Some(front.end + 1))
}

/// Appends the cell of a field that begins with no plain number: of an empty one, or of one between quotes.
#[inline(always)]
fn push_other(
    chunk: &mut Chunk,
    context: &Context,
    bytes: &[u8],
    from: usize,
) -> Result<Option<usize>, NoMemory>
    requires holds { HoldsNumbers context.now }
    requires types { chunk.old.types ≡ context.now.schema.types }
    requires next { slice_get chunk.old.types (length chunk.old.unfinished) ≡ Some Bigint }
    requires within { from ≤ length bytes.now }
    ensures at { IfOk result (λ found. IfSome found (IsFieldPushed context.now Bigint bytes.now from chunk.old chunk.new)) }
    ensures none { IfOk result (λ found. found ≡ None → KeepsRows chunk.old chunk.new) }
{
    if from == bytes.len() || !is_quote(&context.dialect, bytes[from]) {
        return push_empty(chunk, context, bytes, from);
    }
    match doubled_quote(&context.dialect) {
        Some(_) => push_quoted_number(chunk, context, bytes, from),
        None => Ok(None),
    }
}

/// Appends the cell of the next field, which begins at a place, and answers where the field ends, if a delimiter or a line
/// end stands there. None where its row has to be read field by field.
#[inline(always)]
fn push_number(
    chunk: &mut Chunk,
    context: &Context,
    bytes: &[u8],
    from: usize,
) -> Result<Option<usize>, NoMemory>
    requires holds { HoldsNumbers context.now }
    requires types { chunk.old.types ≡ context.now.schema.types }
    requires next { slice_get chunk.old.types (length chunk.old.unfinished) ≡ Some Bigint }
    requires within { from ≤ length bytes.now }
    ensures at { IfOk result (λ found. IfSome found (IsFieldPushed context.now Bigint bytes.now from chunk.old chunk.new)) }
    ensures none { IfOk result (λ found. found ≡ None → KeepsRows chunk.old chunk.new) }
{
    let Some(front) = number_at(bytes, from) else {
        return push_other(chunk, context, bytes, from);
    };
    chunk.push_bigint(front.number)?;
    Ok(Some(front.end))
}

/// Appends the cells of the row at the front of the bytes from the field of a column on, which begins at `start`, and answers
/// where the row ends; none where it has to be read field by field. The row stays under way. It isn't inlined, so that it
/// takes no register from the loop of plain numbers.
#[inline(never)]
pub fn push_rest(
    chunk: &mut Chunk,
    context: &Context,
    bytes: &[u8],
    begun: usize,
    start: usize,
) -> Result<Option<usize>, NoMemory>
    requires holds { HoldsNumbers context.now }
    requires begun { length chunk.old.unfinished ≡ begun }
    requires types { chunk.old.types ≡ context.now.schema.types }
    requires within { start ≤ length bytes.now }
    requires fields { HasFields context.now bytes.now start chunk.old.unfinished }
    requires no_comment { begins_comment context.now.dialect bytes.now ≡ false }
    ensures same { IfOk result (λ row. KeepsRows chunk.old chunk.new) }
    ensures count { IfOk result (λ row. IfSome row (λ end. length chunk.new.unfinished ≡ length chunk.old.types)) }
    ensures ok { IfOk result (λ row. IfSome row (IsFastRow context.now bytes.now chunk.new.unfinished)) }
{
    let delim = context.dialect.delim();
    let columns = context.schema.types.len();
    let mut from = start;
    for column in begun..columns {
        let Some(end) = push_number(chunk, context, bytes, from)? else {
            return Ok(None);
        };
        if bytes[end] != delim {
            return Ok(row_end(bytes, end, column + 1 == columns));
        }
        from = end + 1;
    }
    Ok(None)
}
