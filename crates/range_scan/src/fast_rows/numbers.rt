//! A row of plain numbers is found and cast by one look at its bytes.
ghost use Rattle.std.specs.Prelude.{◌≡◌, ◌≤◌, [], false, true, length, IfOk, IfSome, slice_index};
ghost use Rattle.byte_classes.specs.Fault.{is_line_end_byte};
ghost use Rattle.quote_automaton.specs.Rows.{begins_comment};
ghost use Rattle.range_scan.specs.FastRows.{HoldsNumbers, IsFastRow, IsNumberAt, KeepsRows};

use super::number_fields::{number_at, push_rest};
use crate::context::Context;
use column_store::Chunk;
use csv_source::NoMemory;
use value_types::FrontNumber;

/// The number that begins at a place, where this byte follows it.
#[inline(always)]
fn number_before(bytes: &[u8], from: usize, delim: u8) -> Option<FrontNumber>
    requires within { from ≤ length bytes.now }
    ensures value { IfSome result (IsNumberAt bytes.now from) }
    ensures ends { IfSome result (λ front. slice_index bytes.now front.end ≡ delim) }
{
    let front = number_at(bytes, from)?;
    if bytes[front.end] == delim {
        Some(front)
    } else {
        None
    }
}

/// The number that begins at a place, where a line end follows it.
#[inline(always)]
fn last_number(bytes: &[u8], from: usize) -> Option<FrontNumber>
    requires within { from ≤ length bytes.now }
    ensures value { IfSome result (IsNumberAt bytes.now from) }
    ensures ends { IfSome result (λ front. is_line_end_byte (slice_index bytes.now front.end) ≡ true) }
{
    let front = number_at(bytes, from)?;
    let byte = bytes[front.end];
    if byte == b'\n' || byte == b'\r' {
        Some(front)
    } else {
        None
    }
}

/// Appends the numbers of the row at the front of the bytes as they are found, and from the first field on that is no plain
/// number what `push_rest` finds, and answers where it ends, as that does. The row stays under way.
#[inline(always)]
pub fn push_numbers(
    chunk: &mut Chunk,
    context: &Context,
    bytes: &[u8],
) -> Result<Option<usize>, NoMemory>
    requires holds { HoldsNumbers context.now }
    requires whole { chunk.old.unfinished ≡ [] }
    requires types { chunk.old.types ≡ context.now.schema.types }
    requires no_comment { begins_comment context.now.dialect bytes.now ≡ false }
    ensures same { IfOk result (λ row. KeepsRows chunk.old chunk.new) }
    ensures count { IfOk result (λ row. IfSome row (λ end. length chunk.new.unfinished ≡ length chunk.old.types)) }
    ensures ok { IfOk result (λ row. IfSome row (IsFastRow context.now bytes.now chunk.new.unfinished)) }
{
    let delim = context.dialect.delim();
    let mut from = 0;
    for column in 1..chunk.columns() {
        let Some(front) = number_before(bytes, from, delim) else {
            // Not answered as it comes: then this loop's answer, too, would go through memory.
            let row = push_rest(chunk, context, bytes, column - 1, from)?;
            return Ok(row);
        };
        chunk.push_bigint(front.number)?;
        from = front.end + 1;
    }
    let Some(front) = last_number(bytes, from) else {
        let last = chunk.columns() - 1;
        let row = push_rest(chunk, context, bytes, last, from)?;
        return Ok(row);
    };
    chunk.push_bigint(front.number)?;
    Ok(Some(front.end))
}
