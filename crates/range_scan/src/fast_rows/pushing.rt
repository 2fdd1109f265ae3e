//! A row that one look finds is appended.
ghost use Rattle.std.specs.Prelude.{◌≡◌, ◌≤◌, ◌+◌, [], drop, false, length, IfOk, IfSome, None};
ghost use Rattle.quote_automaton.specs.RowEnd.{row_len};
ghost use Rattle.quote_automaton.specs.Rows.{begins_comment};
ghost use Rattle.row_fields.specs.Split.{row_from};
ghost use Rattle.reject_book.specs.declared.reject.RowPlace.{RowPlace};
ghost use Rattle.reject_book.specs.Judging.{verdict_of};
ghost use Rattle.range_scan.specs.FastRows.{IsFastRow, IsKindOf, KeepsRows};
ghost use Rattle.range_scan.specs.Known.{Knows};
ghost use Rattle.range_scan.specs.Pushed.{IsPushed};

use super::fields::push_fields;
use super::kinds::FastRows;
use super::numbers::push_numbers;
use crate::context::Context;
use crate::known::Known;
use column_store::Chunk;
use csv_source::NoMemory;

/// Appends the cells of the row at the front of the bytes as what rows are tried, and answers where it ends; none where it
/// has to be read field by field. The row stays under way.
#[inline(always)]
fn push_cells(
    chunk: &mut Chunk,
    context: &Context,
    bytes: &[u8],
    rows: FastRows,
) -> Result<Option<usize>, NoMemory>
    requires kind { IsKindOf context.now rows }
    requires whole { chunk.old.unfinished ≡ [] }
    requires types { chunk.old.types ≡ context.now.schema.types }
    requires no_comment { begins_comment context.now.dialect bytes.now ≡ false }
    ensures same { IfOk result (λ row. KeepsRows chunk.old chunk.new) }
    ensures count { IfOk result (λ row. IfSome row (λ end. length chunk.new.unfinished ≡ length chunk.old.types)) }
    ensures ok { IfOk result (λ row. IfSome row (IsFastRow context.now bytes.now chunk.new.unfinished)) }
{
    match rows {
        FastRows::Never => Ok(None),
        FastRows::Numbers => push_numbers(chunk, context, bytes),
        FastRows::Values | FastRows::Texts => push_fields(chunk, context, bytes),
    }
}

/// Appends the row that begins at a place where one look finds all its fields, and answers its end. Else the chunk is as it
/// was.
#[inline(always)]
pub fn push_fast(
    chunk: &mut Chunk,
    context: &Context,
    bytes: &[u8],
    at: usize,
    known: Known,
) -> Result<Option<usize>, NoMemory>
    requires known { Knows context.now bytes.now at known }
    requires within { (at ≤ length bytes.now) × (known.text_to ≤ length bytes.now) }
    requires whole { chunk.old.unfinished ≡ [] }
    requires types { chunk.old.types ≡ context.now.schema.types }
    requires no_comment { begins_comment context.now.dialect (drop at bytes.now) ≡ false }
    ensures ok { IfOk result (λ row. IfSome row (λ end. (end ≡ at + row_len context.now.dialect bytes.now at) × (end ≤ length bytes.now)
        × ((place : RowPlace) → IsPushed (verdict_of context.now.dialect context.now.schema place (row_from context.now.dialect bytes.now at)) 0 chunk.old chunk.new))) }
    ensures none { IfOk result (λ row. row ≡ None → chunk.new ≡ chunk.old) }
{
    if let Some(len) = push_cells(chunk, context, &bytes[at..], known.rows)? {
        if len > 0 && len as u64 <= context.schema.max_line_size && known.is_text(at + len) {
            chunk.finish_row()?;
            return Ok(Some(at + len));
        }
    }
    chunk.drop_unfinished_row();
    Ok(None)
}
