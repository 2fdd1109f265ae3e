//! A row of plain values, texts and empty fields is found and cast by one look at its bytes.
ghost use Rattle.std.specs.Prelude.{◌≡◌, ◌≤◌, ◌<◌, [], false, true, length, IfOk, IfSome, None, Some, slice_get, slice_index};
ghost use Rattle.byte_classes.specs.Fault.{is_line_end_byte};
ghost use Rattle.quote_automaton.specs.Rows.{begins_comment};
ghost use Rattle.value_types.specs.declared.types.ColumnType.{ColumnType};
ghost use Rattle.range_scan.specs.FastRows.{HoldsFields, IsFastRow, IsFieldPushed, KeepsRows};

use super::texts::push_text;
use crate::context::Context;
use column_store::Chunk;
use csv_source::NoMemory;
use reject_book::is_null;
use value_types::{Cell, ColumnType};

/// Appends null for a field of no bytes, where an empty text stands for null. That the field ends here the caller sees.
#[inline(always)]
pub fn push_empty(
    chunk: &mut Chunk,
    context: &Context,
    bytes: &[u8],
    from: usize,
) -> Result<Option<usize>, NoMemory>
    requires holds { HoldsFields context.now }
    requires next { length chunk.old.unfinished < length chunk.old.types }
    requires within { from ≤ length bytes.now }
    ensures at { IfOk result (λ found. IfSome found (λ end. (ty : ColumnType) → IsFieldPushed context.now ty bytes.now from chunk.old chunk.new end)) }
    ensures none { IfOk result (λ found. found ≡ None → chunk.new ≡ chunk.old) }
{
    if from == bytes.len() || !is_null(&context.schema, false, b"") {
        return Ok(None);
    }
    chunk.push_cell(Cell::Null)?;
    Ok(Some(from))
}

/// Appends the cell of the next field, which begins at a place, and answers where the field ends, if a delimiter or a line
/// end stands there. None where its row has to be read field by field.
#[inline(always)]
fn push_field(
    chunk: &mut Chunk,
    context: &Context,
    ty: ColumnType,
    bytes: &[u8],
    from: usize,
) -> Result<Option<usize>, NoMemory>
    requires holds { HoldsFields context.now }
    requires types { chunk.old.types ≡ context.now.schema.types }
    requires next { slice_get chunk.old.types (length chunk.old.unfinished) ≡ Some ty }
    requires within { from ≤ length bytes.now }
    ensures at { IfOk result (λ found. IfSome found (IsFieldPushed context.now ty bytes.now from chunk.old chunk.new)) }
    ensures none { IfOk result (λ found. found ≡ None → KeepsRows chunk.old chunk.new) }
{
    if ty == ColumnType::Varchar {
        return push_text(chunk, context, bytes, from);
    }
    match chunk.push_front(bytes, from)? {
        Some(end) => Ok(Some(end)),
        None => push_empty(chunk, context, bytes, from),
    }
}

/// Where a row ends whose last field ends at a place: there, if a line end stands there and the field is the last one.
#[inline(always)]
pub fn row_end(bytes: &[u8], end: usize, is_last: bool) -> Option<usize>
    requires within { end < length bytes.now }
    ensures { IfSome result (λ len. (len ≡ end) × (is_last ≡ true) × (is_line_end_byte (slice_index bytes.now end) ≡ true)) }
{
    let byte = bytes[end];
    if is_last && (byte == b'\n' || byte == b'\r') {
        Some(end)
    } else {
        None
    }
}

/// Appends the cells of the row at the front of the bytes as its fields are found, and answers where it ends; none where it
/// has to be read field by field. The row stays under way. It isn't inlined, so that it takes no register from the loop of
/// plain numbers.
#[inline(never)]
pub fn push_fields(
    chunk: &mut Chunk,
    context: &Context,
    bytes: &[u8],
) -> Result<Option<usize>, NoMemory>
    requires holds { HoldsFields context.now }
    requires whole { chunk.old.unfinished ≡ [] }
    requires types { chunk.old.types ≡ context.now.schema.types }
    requires no_comment { begins_comment context.now.dialect bytes.now ≡ false }
    ensures same { IfOk result (λ row. KeepsRows chunk.old chunk.new) }
    ensures count { IfOk result (λ row. IfSome row (λ end. length chunk.new.unfinished ≡ length chunk.old.types)) }
    ensures ok { IfOk result (λ row. IfSome row (IsFastRow context.now bytes.now chunk.new.unfinished)) }
{
    let delim = context.dialect.delim();
    let types = &context.schema.types;
    let mut from = 0;
    for column in 0..types.len() {
        let Some(end) = push_field(chunk, context, types.get(column), bytes, from)? else {
            return Ok(None);
        };
        if bytes[end] != delim {
            return Ok(row_end(bytes, end, column + 1 == types.len()));
        }
        from = end + 1;
    }
    Ok(None)
}
