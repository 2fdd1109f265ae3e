// Pages of cells that stand one behind another.
ghost use Rattle.std.specs.Prelude.{◌≡◌, ◌+◌, ◌*◌, ◌≤◌, ◌++◌, length, OnOk};
ghost use Rattle.db_pages.specs.Cut.{cut, packed, page_head, starts, total};

use crate::number::PAGE;
use csv_source::NoMemory;
use db_records::{append, push_zeros};

/// Appends where cells of these sizes begin, where the first begins at a place.
fn push_starts(into: &mut Vec<u8>, at: usize, sizes: &[u16]) -> Result<(), NoMemory>
    requires within { at + total sizes.now ≤ 4096 }
    ensures ok { OnOk result (into.new.items ≡ into.old.items ++ starts at sizes.now) }
{
    match sizes {
        [size, rest @ ..] => {
            append(into, &[(at / 256) as u8, (at % 256) as u8])?;
            push_starts(into, at + usize::from(*size), rest)
        }
        [] => Ok(()),
    }
}

/// Appends what stands behind the head of a page of these cells, which has so many bytes.
pub(crate) fn push_packed(
    into: &mut Vec<u8>,
    head: usize,
    sizes: &[u16],
    cells: &[u8],
) -> Result<(), NoMemory>
    requires whole { total sizes.now ≡ length cells.now }
    requires room { head + 2 * length sizes.now + length cells.now ≤ 4096 }
    ensures ok { OnOk result (into.new.items ≡ into.old.items ++ packed head (cut sizes.now cells.now)) }
{
    let at = PAGE - cells.len();
    push_starts(into, at, sizes)?;
    push_zeros(into, at - (head + 2 * sizes.len()))?;
    append(into, cells)
}

/// The first bytes of a page of cells: its kind, no free block, how many cells, where they begin, no fragment.
pub(crate) fn head_of(kind: u8, sizes: &[u16], cells: &[u8]) -> [u8; 8]
    requires room { 2 * length sizes.now + length cells.now ≤ 4096 }
    ensures { result ≡ page_head kind (length sizes.now) (length cells.now) }
{
    let count = sizes.len();
    let at = PAGE - cells.len();
    [
        kind,
        0,
        0,
        (count / 256) as u8,
        (count % 256) as u8,
        (at / 256) as u8,
        (at % 256) as u8,
        0,
    ]
}
