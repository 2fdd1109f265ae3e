// The cells of rows.
ghost use Rattle.std.specs.Prelude.{◌≡◌, ◌+◌, ◌≤◌, ◌<◌, ◌++◌, [], ◌∷◌, length, OnOk};
ghost use Rattle.db_records.specs.Cell.{cell_bytes};
ghost use Rattle.db_records.specs.Record.{record_of, IsShortRecord};
ghost use Rattle.db_records.specs.Varint.{varint};

use crate::varint::{four_digits, push_varint, three_digits, varint_len};
use csv_source::NoMemory;
use text_pieces::Draft;

/// How many bytes stand before a record of so many in its cell: its length and its rowid.
#[inline(always)]
pub fn cell_head_len(len: usize, rowid: u64) -> usize
    ensures value { result ≡ length (varint len) + length (varint rowid) }
    ensures within { result ≤ 16 }
{
    varint_len(len as u64) + varint_len(rowid)
}

/// Appends what stands before a record of so many bytes in its cell.
pub fn push_cell_head(into: &mut Draft, len: usize, rowid: u64) -> Result<(), NoMemory>
    ensures ok { OnOk result (into.new.text ≡ into.old.text ++ (varint len ++ varint rowid)) }
{
    push_varint(into, len as u64)?;
    push_varint(into, rowid)
}

/// How many bytes the cell of a row has.
#[inline(always)]
pub fn cell_len(rowid: u64, row: &[u8]) -> usize
    requires short { length row.now ≤ 4061 }
    ensures value { result ≡ length (cell_bytes rowid row.now) }
    ensures within { result ≤ 4077 }
{
    cell_head_len(row.len(), rowid) + row.len()
}

/// Appends the cell of a row, whose record stays whole in it.
#[inline(always)]
pub fn push_cell(into: &mut Draft, rowid: u64, row: &[u8]) -> Result<(), NoMemory>
    ensures ok { OnOk result (into.new.text ≡ into.old.text ++ cell_bytes rowid row.now) }
{
    push_cell_head(into, row.len(), rowid)?;
    into.append(row)
}

/// How many bytes the cell of a row has whose record is made of few types and some values.
#[inline(always)]
pub fn values_cell_len(rowid: u64, types: &Draft, body: &Draft) -> usize
    requires short { IsShortRecord types.now.text body.now.text }
    ensures value { result ≡ length (cell_bytes rowid (record_of types.now.text body.now.text)) }
    ensures within { result ≤ 4077 }
{
    let len = 1 + types.len() + body.len();
    cell_head_len(len, rowid) + len
}

/// Appends what stands before the types of a record in its cell: its length, its rowid and the size of its header.
#[inline(always)]
fn push_values_head(into: &mut Draft, len: usize, rowid: u64, header: u8) -> Result<(), NoMemory>
    ensures ok { OnOk result (into.new.text ≡ into.old.text ++ (varint len ++ (varint rowid ++ header ∷ []))) }
{
    // Most records are short, and most rowids of large tables have three bytes or four. Eight bytes are stored at once.
    if len < 1 << 7 && rowid >= 1 << 14 && rowid < 1 << 21 {
        let [first, second, last] = three_digits(rowid);
        return into.append_front(&[len as u8, first, second, last, header, 0, 0, 0], 5);
    }
    if len < 1 << 7 && rowid >= 1 << 21 && rowid < 1 << 28 {
        let [first, second, third, last] = four_digits(rowid);
        return into.append_front(&[len as u8, first, second, third, last, header, 0, 0], 6);
    }
    push_cell_head(into, len, rowid)?;
    into.push(header)
}

/// Appends the cell of a row whose record is made of few types and some values, and stays whole in it.
#[inline(always)]
pub fn push_values_cell(
    into: &mut Draft,
    rowid: u64,
    types: &Draft,
    body: &Draft,
) -> Result<(), NoMemory>
    requires short { IsShortRecord types.now.text body.now.text }
    ensures ok { OnOk result (into.new.text ≡ into.old.text ++ cell_bytes rowid (record_of types.now.text body.now.text)) }
{
    let len = 1 + types.len() + body.len();
    push_values_head(into, len, rowid, types.len() as u8 + 1)?;
    into.append_draft(types)?;
    into.append_draft(body)
}
