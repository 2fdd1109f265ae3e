// The length and the checksum of an array's file.
ghost use Rattle.std.specs.Prelude.{◌≡◌, ◌<◌, length, IfOk};
ghost use Rattle.zip_archive.specs.Crc.{crc_after};
ghost use Rattle.npz_writer.specs.Slots.{count_at, member_at, IsMeasure};
ghost use Rattle.npz_writer.specs.Walks.{rest};

use crate::columns::{has_texts, type_of};
use crate::npy::npy_head;
use crate::part::Part;
use crate::sheet::Sheet;
use crate::walk::Walk;
use csv_source::NoMemory;
use std::alloc::Global;
use zip_archive::Crc32;

/// So many bytes stay in the processor's first cache.
const BLOCK_SIZE: usize = 16_384;

/// How many elements an array has, how many bytes its file has, and the CRC-32 of these.
#[derive(Clone, Copy)]
pub(crate) struct Measure {
    pub(crate) count: u64,
    pub(crate) length: u64,
    pub(crate) crc: u32,
}

/// How many bytes are to come.
fn count_bytes(mut walk: Walk<'_>) -> Result<u64, NoMemory>
    ensures { IfOk result (λ count. count ≡ length (rest walk.entry)) }
{
    let mut block = [0u8; BLOCK_SIZE];
    let mut total: u64 = 0;
    while let Some(count) = walk.next(&mut block) {
        total = total.checked_add(count as u64).ok_or(NoMemory)?;
    }
    Ok(total)
}

/// Takes the bytes that are to come into a checksum, and answers how many came.
fn take_bytes(mut walk: Walk<'_>, crc: &mut Crc32) -> Result<u64, NoMemory>
    ensures count { IfOk result (λ count. count ≡ length (rest walk.entry)) }
    ensures crc { IfOk result (λ _. crc.new ≡ crc_after crc.old (rest walk.entry)) }
{
    let mut block = [0u8; BLOCK_SIZE];
    let mut total: u64 = 0;
    while let Some(count) = walk.next(&mut block) {
        crc.update(&block[..count]);
        total = total.checked_add(count as u64).ok_or(NoMemory)?;
    }
    Ok(total)
}

/// How many elements an array has.
fn count_elements(sheet: &Sheet, column: usize, part: Part) -> Result<u64, NoMemory>
    requires { column < length sheet.now.types }
    ensures { IfOk result (λ count. count ≡ count_at sheet.now column part) }
{
    if part == Part::Values && has_texts(type_of(&sheet.table, column)) {
        return count_bytes(Walk::of(&sheet.table, column, part));
    }
    Ok(sheet.table.rows() as u64)
}

/// Measures the file of an array. `NoMemory` also where its length passes 64 bits.
pub(crate) fn measure_file(
    alloc: Global,
    sheet: &Sheet,
    column: usize,
    part: Part,
) -> Result<Measure, NoMemory>
    requires { column < length sheet.now.types }
    ensures { IfOk result (IsMeasure (member_at sheet.now column part) (count_at sheet.now column part)) }
{
    let count = count_elements(sheet, column, part)?;
    let head = npy_head(alloc, part.kind(type_of(&sheet.table, column)), count)?;
    let mut crc = Crc32::new();
    crc.update(&head);
    let bytes = take_bytes(Walk::of(&sheet.table, column, part), &mut crc)?;
    let length = bytes.checked_add(head.len() as u64).ok_or(NoMemory)?;
    Ok(Measure {
        count,
        length,
        crc: crc.value(),
    })
}
