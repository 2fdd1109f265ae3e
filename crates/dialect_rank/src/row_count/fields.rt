//! Fields are counted one behind another: each is looked at where the one before it ended. None where that doesn't show where it
//! ends, as where its quotes aren't doubled or aren't closed.
ghost use Rattle.std.specs.Prelude.{◌≡◌, ◌≤◌, ◌<◌, false, true, length, if◌then◌else◌, IfSome, slice_index};
ghost use Rattle.byte_classes.specs.Class.{class_of};
ghost use Rattle.byte_classes.specs.Dialect.{IsDialect};
ghost use Rattle.byte_classes.specs.Special.{is_special};
ghost use Rattle.quote_automaton.specs.Automaton.{IsDoubled, IsDoubling};
ghost use Rattle.quote_automaton.specs.Rows.{begins_comment};
ghost use Rattle.dialect_rank.specs.RowCount.{HasCount, IsSoundField, IsStop};

use crate::row_count::RowCount;
use byte_classes::{Dialect, is_line_end, next_byte, next_special};
use quote_automaton::doubled_quote;
use row_fields::is_doubled;

/// Where a field ends, and whether it is quoted.
#[derive(Clone, Copy)]
pub struct FieldStop {
    pub end: usize,
    pub quoted: bool,
}

/// Where the field ends whose opening quote stands at a place, where quotes are doubled. That it ends behind the closing quote
/// the caller sees.
#[inline(always)]
fn quoted_end(dialect: &Dialect, bytes: &[u8], from: usize) -> Option<usize>
    requires sound { IsDialect dialect.now }
    requires within { from < length bytes.now }
    requires doubles { IsDoubling dialect.now (slice_index bytes.now from) }
    ensures within { IfSome result (λ end. (from ≤ end) × (end < length bytes.now)) }
    ensures ends { IfSome result (λ end. is_special false (class_of dialect.now (slice_index bytes.now end)) ≡ true → IsSoundField dialect.now bytes.now from end true) }
{
    let quote = bytes[from];
    let mut at = next_byte(quote, bytes, from + 1);
    'quotes: while is_doubled(quote, bytes, at) {
        at = next_byte(quote, bytes, at + 2);
    }
    if bytes.len() - at <= 1 {
        return None;
    }
    Some(at + 1)
}

/// Where the field ends that begins at a place; `doubled` is the quote, where quotes are doubled.
#[inline(always)]
fn field_stop(
    dialect: &Dialect,
    doubled: Option<u8>,
    bytes: &[u8],
    from: usize,
) -> Option<FieldStop>
    requires sound { IsDialect dialect.now }
    requires doubled { IsDoubled dialect.now doubled }
    requires within { from ≤ length bytes.now }
    ensures { IfSome result (IsStop dialect.now bytes.now from) }
{
    if from == bytes.len() {
        return None;
    }
    if dialect.quote() == Some(bytes[from]) {
        doubled?;
        let end = quoted_end(dialect, bytes, from)?;
        return Some(FieldStop { end, quoted: true });
    }
    let end = next_special(dialect, bytes, from, false);
    if end == bytes.len() {
        return None;
    }
    Some(FieldStop { end, quoted: false })
}

/// One for a quoted field.
#[inline(always)]
fn one_if(quoted: bool) -> usize
    ensures value { result ≡ (if quoted then 1 else 0) }
    ensures few { result ≤ 1 }
{
    if quoted { 1 } else { 0 }
}

/// Counts the fields of the row at the front of the bytes, up to a line end. None where it has to be read field by field.
#[inline(always)]
pub fn count_row(dialect: &Dialect, bytes: &[u8]) -> Option<RowCount>
    requires no_comment { begins_comment dialect.now bytes.now ≡ false }
    ensures { IfSome result (HasCount dialect.now bytes.now) }
{
    let delim = dialect.delim();
    let doubled = doubled_quote(dialect);
    let mut from = 0;
    let mut fields = 0;
    let mut quoted = 0;
    'fields: loop {
        let stop = field_stop(dialect, doubled, bytes, from)?;
        fields += 1;
        quoted += one_if(stop.quoted);
        let byte = bytes[stop.end];
        if byte != delim {
            if !is_line_end(byte) {
                return None;
            }
            return Some(RowCount {
                end: stop.end,
                fields,
                quoted,
            });
        }
        from = stop.end + 1;
    }
}
