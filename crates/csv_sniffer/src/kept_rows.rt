//! A row that leaves the types that are possible for all columns as they are is found by one look at its bytes.
ghost use Rattle.std.specs.Prelude.{◌≡◌, ◌≤◌, ◌<◌, ℕ, true, false, length, slice_index, slice_index_or, slice_range, IfSome};
ghost use Rattle.std.specs.List.{list_all};
ghost use Rattle.row_fields.specs.Fields.{fields};
ghost use Rattle.row_fields.specs.Plain.{LeavesPlain};
ghost use Rattle.row_fields.specs.Split.{row_from};
ghost use Rattle.load_options.specs.declared.options.Options.{Options};
ghost use Rattle.value_types.specs.declared.possible_types.PossibleTypes.{PossibleTypes};
ghost use Rattle.value_types.specs.KeptTypes.{is_settled, is_value_byte, keeps};
ghost use Rattle.value_types.specs.PossibleTypes.{narrowed_by};
ghost use Rattle.csv_sniffer.specs.PossibleTypes.{column_value};

use crate::sampled_rows::SampledRows;
use byte_classes::{Dialect, is_line_end};
use quote_automaton::begins_comment;
use value_types::{ColumnType, PossibleTypes, is_plain};

/// Whether a byte may stand in a plain value of a type.
fn is_value_byte(byte: u8) -> bool
    ensures { result ≡ is_value_byte byte }
{
    is_plain(ColumnType::Timestamp, byte) || is_plain(ColumnType::Boolean, byte)
}

/// Whether there is a byte, and it may stand in a plain value.
fn is_value_mark(mark: Option<u8>) -> bool
    ensures { result ≡ false → IfSome mark (λ b. is_value_byte b ≡ false) }
{
    match mark {
        Some(byte) => is_value_byte(byte),
        None => false,
    }
}

/// Whether the dialect gives no meaning to the bytes of plain values.
pub fn leaves_values(dialect: &Dialect) -> bool
    ensures { result ≡ true → LeavesPlain is_value_byte dialect.now }
{
    !is_value_byte(dialect.delim())
        && !is_value_mark(dialect.quote())
        && !is_value_mark(dialect.comment())
}

/// How many columns there are up to the last one whose type isn't settled.
fn unsettled(possible: &[PossibleTypes]) -> usize
    ensures within { result ≤ length possible.now }
    ensures settled { (column : ℕ) (other : PossibleTypes) → result ≤ column → column < length possible.now → is_settled (slice_index_or possible.now column other) ≡ true }
{
    for count in 0..possible.len() {
        let last = possible.len() - count;
        if !possible[last - 1].is_settled() {
            return last;
        }
    }
    0
}

/// Whether the row that begins at a place leaves the types of all columns as they are, whether it agrees or not, as one look
/// at its bytes shows. It looks at no column behind the last one that isn't settled.
#[inline(never)]
pub fn keeps_types(possible: &[PossibleTypes], rows: &SampledRows, start: usize) -> bool
    requires { start ≤ length rows.now.sample.now }
    ensures { result ≡ true → (o : Options) (column : ℕ) (other : PossibleTypes) → column < length possible.now →
        slice_index_or possible.now column other
        ≡ narrowed_by (column_value o (fields rows.now.dialect (row_from rows.now.dialect rows.now.sample.now start)) column) (slice_index_or possible.now column other) }
{
    if !rows.leaves_values {
        return false;
    }
    let sample = rows.sample;
    if begins_comment(&rows.dialect, &sample[start..]) {
        return false;
    }
    let delim = rows.dialect.delim();
    let count = unsettled(possible);
    let mut from = start;
    for column in 0..count {
        let Some(end) = possible[column].kept_front(sample, from) else {
            return false;
        };
        if sample[end] != delim {
            return column + 1 == count && is_line_end(sample[end]);
        }
        from = end + 1;
    }
    true
}
