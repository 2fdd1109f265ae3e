//! Rows by their numbers, as `bench/database_images.py` makes them.

use csv_source::NoMemory;
use db_pages::Leaves;
use db_records::{push_integer, push_null, push_record, push_text};
use std::alloc::Global;
use text_pieces::Draft;

/// Appends the value of a column of a row: null now and then, else a number of one to eight bytes.
fn push_number(
    types: &mut Draft,
    body: &mut Draft,
    rowid: u64,
    column: u64,
) -> Result<(), NoMemory> {
    if rowid % 11 == column % 11 {
        return push_null(types);
    }
    let small = (rowid % 1000) * 31 + (column % 100) * 7;
    let size = match column % 6 {
        0 => small,
        1 => small * 256,
        2 => small * 65_536,
        3 => small * 16_777_216,
        4 => small * 4_294_967_296,
        _ => small * 1_099_511_627_776,
    } as i64;
    push_integer(types, body, if rowid % 2 == 0 { -size } else { size })
}

/// The record of a row of so many numbers.
fn numbers_row(alloc: Global, rowid: u64, columns: u64) -> Result<Vec<u8>, NoMemory> {
    let mut types = Draft::new(alloc);
    let mut body = Draft::new(alloc);
    for column in 0..columns {
        push_number(&mut types, &mut body, rowid, column)?;
    }
    let mut row = Draft::new(alloc);
    push_record(&mut row, &types, &body)?;
    Ok(row.into_text())
}

/// Rows of numbers, from the first on.
pub(crate) fn numbers(
    alloc: Global,
    base: u64,
    rows: u64,
    columns: u64,
) -> Result<Leaves, NoMemory> {
    let mut leaves = Leaves::new(alloc, base);
    for row in 0..rows {
        let rowid = row.saturating_add(1);
        leaves.push(rowid, &numbers_row(alloc, rowid, columns)?)?;
    }
    Ok(leaves)
}

/// The record of a length and a text of that length, of one letter.
fn text_row(alloc: Global, rowid: u64, length: u32) -> Result<Vec<u8>, NoMemory> {
    let mut text = Vec::new(alloc);
    text.resize(length as usize, b'a' + (rowid % 26) as u8)?;
    let mut types = Draft::new(alloc);
    let mut body = Draft::new(alloc);
    push_integer(&mut types, &mut body, i64::from(length))?;
    push_text(&mut types, &mut body, &text)?;
    let mut row = Draft::new(alloc);
    push_record(&mut row, &types, &body)?;
    Ok(row.into_text())
}

/// Appends texts of these lengths behind so many other rows.
pub(crate) fn push_texts(
    alloc: Global,
    leaves: &mut Leaves,
    before: u64,
    lengths: &[u32],
) -> Result<(), NoMemory> {
    let mut rowid = before;
    for length in lengths {
        rowid = rowid.saturating_add(1);
        leaves.push(rowid, &text_row(alloc, rowid, *length)?)?;
    }
    Ok(())
}

/// The definition of a table of so many columns without types.
pub(crate) fn definition(alloc: Global, name: &[u8], columns: u64) -> Result<Vec<u8>, NoMemory> {
    let mut text = b"CREATE TABLE ".to_vec(alloc)?;
    text.extend_from_slice(name)?;
    text.extend_from_slice(b" (")?;
    for column in 0..columns {
        text.extend_from_slice(if column == 0 { b"c" } else { b", c" })?;
        text.extend_from_slice(itoa::Buffer::new().format(column).as_bytes())?;
    }
    text.extend_from_slice(b")")?;
    Ok(text)
}
