// Records that don't stay whole in their cell, and the pages in which they go on.
ghost use Rattle.std.specs.Prelude.{◌≡◌, ◌+◌, ◌<◌, ◌≤◌, ◌++◌, length, OnOk};
ghost use Rattle.db_pages.specs.Laid.{chain, long_cell};
ghost use Rattle.sqlite_format.specs.Cell.{local_len};
ghost use Rattle.sqlite_format.specs.declared.kind.Tree.TheVariants.{Table};

use crate::number::{PAGE, number_bytes};
use csv_source::NoMemory;
use db_records::{append, cell_head_len, push_cell_head, push_zeros};
use text_pieces::Draft;

/// The longest record that stays whole in its cell.
pub(crate) const MOST_LOCAL: usize = 4061;

/// The least of a longer record that does.
const LEAST_LOCAL: usize = 489;

/// How many bytes of a record a page of its own holds, behind the number of the next one.
const LINK_ROOM: usize = PAGE - 4;

/// How many bytes of a record of so many stay in its cell.
#[tactic(auto, unfolding(sqlite_format::specs::Cell::local_len))]
pub(crate) fn local_len(len: usize) -> usize
    ensures value { result ≡ local_len Table 4096 len }
    ensures within { result ≤ len }
    ensures most { result ≤ 4061 }
    ensures some { 0 < len → 0 < result }
{
    if len <= MOST_LOCAL {
        return len;
    }
    let fitted = LEAST_LOCAL + (len - LEAST_LOCAL) % LINK_ROOM;
    if fitted <= MOST_LOCAL {
        fitted
    } else {
        LEAST_LOCAL
    }
}

/// How many bytes the cell of a record has that goes on in other pages.
#[inline(always)]
pub(crate) fn long_cell_len(rowid: u64, row: &[u8]) -> usize
    ensures value { result ≡ length (long_cell 0 rowid row.now) }
    ensures within { result ≤ 4086 }
{
    cell_head_len(row.len(), rowid) + local_len(row.len()) + 4
}

/// Appends the cell of a record that goes on at a place.
pub(crate) fn push_long_cell(
    into: &mut Draft,
    rowid: u64,
    row: &[u8],
    place: u64,
) -> Result<(), NoMemory>
    ensures ok { OnOk result (into.new.text ≡ into.old.text ++ long_cell place rowid row.now) }
{
    push_cell_head(into, row.len(), rowid)?;
    into.append(&row[..local_len(row.len())])?;
    into.append(&number_bytes(place)?)
}

/// Appends the pages in which a record goes on, from a place on. `NoMemory` also where the number of one doesn't fit 32 bits.
pub(crate) fn push_chain(into: &mut Vec<u8>, first: u64, bytes: &[u8]) -> Result<(), NoMemory>
    ensures ok { OnOk result (into.new.items ≡ into.old.items ++ chain (length bytes.now + 1) first bytes.now) }
{
    let mut place = first;
    let mut rest = bytes;
    while rest.len() > LINK_ROOM {
        place = place.checked_add(1).ok_or(NoMemory)?;
        append(into, &number_bytes(place)?)?;
        let (front, behind) = rest.split_at(LINK_ROOM);
        append(into, front)?;
        rest = behind;
    }
    append(into, &[0; 4])?;
    append(into, rest)?;
    push_zeros(into, LINK_ROOM - rest.len())
}
