//! The next row of a sample that has a byte, and what it counts for.
ghost use Rattle.std.specs.Prelude.{◌≡◌, ◌≤◌, ◌<◌, [], drop, false, length, IfOk, IfSome, MatchOption};
ghost use Rattle.quote_automaton.specs.declared.state.State.TheVariants.{RowStart};
ghost use Rattle.quote_automaton.specs.Rows.{begins_comment, first_row_start};
ghost use Rattle.dialect_rank.specs.RowCount.{HasCount};
ghost use Rattle.dialect_rank.specs.Walk.{filled_from, FindsRow, IsRowAt};

use crate::row_count::RowCount;
use crate::row_count::bare_rows::count_bare;
use crate::row_count::fields::count_row;
use crate::shape::{RowShape, closed_fields, shape_of};
use byte_classes::Dialect;
use csv_source::NoMemory;
use quote_automaton::{State, begins_comment, first_row_start};
use row_fields::{Fields, next_start};

/// A row of a sample: from where to where it goes, and what it counts for.
#[derive(Clone, Copy)]
pub struct FoundRow {
    pub from: usize,
    pub end: usize,
    pub shape: RowShape,
    pub closed: usize,
}

/// The row that begins at a place, read field by field. It isn't inlined, since few rows need it.
#[inline(never)]
fn read_row(
    dialect: &Dialect,
    sample: &[u8],
    from: usize,
    fields: &mut Fields,
) -> Result<FoundRow, NoMemory>
    requires within { from ≤ length sample.now }
    ensures { IfOk result (IsRowAt dialect.now sample.now from) }
{
    let end = fields.read_row(dialect, sample, from)?;
    Ok(FoundRow {
        from,
        end,
        shape: shape_of(fields),
        closed: closed_fields(fields),
    })
}

/// Counts the fields of the row at the front of the bytes: first as those of a bare row, where `bare` says so.
#[inline(always)]
fn count_front(dialect: &Dialect, bytes: &[u8], bare: bool) -> Option<RowCount>
    requires no_comment { begins_comment dialect.now bytes.now ≡ false }
    ensures { IfSome result (HasCount dialect.now bytes.now) }
{
    if bare {
        if let Some(row) = count_bare(dialect, bytes) {
            return Some(row);
        }
    }
    count_row(dialect, bytes)
}

/// The row that begins at a place. Nearly every one is counted by one look.
#[inline(always)]
fn row_at(
    dialect: &Dialect,
    sample: &[u8],
    from: usize,
    bare: bool,
    fields: &mut Fields,
) -> Result<FoundRow, NoMemory>
    requires within { from ≤ length sample.now }
    requires no_comment { begins_comment dialect.now (drop from sample.now) ≡ false }
    ensures { IfOk result (IsRowAt dialect.now sample.now from) }
{
    let Some(row) = count_front(dialect, &sample[from..], bare) else {
        return read_row(dialect, sample, from, fields);
    };
    Ok(FoundRow {
        from,
        end: from + row.end,
        shape: RowShape {
            fields: row.fields,
            sound: true,
        },
        closed: row.quoted,
    })
}

/// Where the next row begins, from the start of a line on: there, unless it is a comment line.
#[inline(always)]
fn row_start(dialect: &Dialect, sample: &[u8], at: usize) -> Option<usize>
    requires within { at < length sample.now }
    ensures { result ≡ first_row_start dialect.now RowStart sample.now at (length sample.now) }
{
    if begins_comment(dialect, &sample[at..]) {
        return first_row_start(dialect, State::RowStart, sample, at, sample.len());
    }
    Some(at)
}

/// Finds the next row with a byte, from the start of a line on. Comment lines are passed over. `bare` says that rows are likely
/// to have no quote.
pub fn next_filled(
    dialect: &Dialect,
    sample: &[u8],
    from: usize,
    bare: bool,
    fields: &mut Fields,
) -> Result<Option<FoundRow>, NoMemory>
    ensures { IfOk result (λ row. MatchOption row (filled_from dialect.now sample.now from ≡ []) (FindsRow dialect.now sample.now from)) }
{
    let mut at = from;
    while at < sample.len() {
        let Some(start) = row_start(dialect, sample, at) else {
            return Ok(None);
        };
        let row = row_at(dialect, sample, start, bare, fields)?;
        if start < row.end {
            return Ok(Some(row));
        }
        at = next_start(sample, row.end);
    }
    Ok(None)
}
