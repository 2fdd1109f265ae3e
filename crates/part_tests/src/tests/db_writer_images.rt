//! Whole databases.

use super::db_writer_rows::{definition, numbers, push_texts};
use csv_source::{MemorySink, NoMemory};
use db_pages::{Image, Leaves, TablePages};
use sha2::{Digest, Sha256};
use std::alloc::Global;
use text_pieces::Pieces;

/// A digit to base 16.
fn digit(value: u8) -> u8 {
    b"0123456789abcdef"[(value % 16) as usize]
}

/// Whether bytes have a digest, in digits to base 16.
fn has_digest(bytes: &[u8], digest: &str) -> bool {
    let mut digits = digest.as_bytes();
    for byte in Sha256::digest(bytes) {
        let [high, low, rest @ ..] = digits else {
            return false;
        };
        if *high != digit(byte / 16) || *low != digit(byte % 16) {
            return false;
        }
        digits = rest;
    }
    digits.is_empty()
}

/// How many bytes another program made, and their digest.
pub(crate) type Made = (usize, &'static str);

/// Whether a text is the one that another program made.
pub(crate) fn is_made(alloc: Global, text: &Pieces, made: Made) -> Result<bool, NoMemory> {
    let mut sink = MemorySink::with_room(alloc, made.0)?;
    let whole = text.write(&mut sink).is_ok() && sink.taken().len() == made.0;
    Ok(whole && has_digest(sink.taken(), made.1))
}

/// Rows and columns of numbers, and the database of their table.
struct Numbers(u64, u64, usize, &'static str);

const NUMBERS: [Numbers; 6] = [
    Numbers(
        0,
        4,
        12288,
        "2795ff6ebf475e411f8568185f8e6c792c1305d097df069363e20334594305da",
    ),
    Numbers(
        179,
        4,
        12288,
        "0911f47bca167d5c6cfdbe26f042c8fb57220f529d117b752dd5d1edd560b27e",
    ),
    Numbers(
        180,
        4,
        20480,
        "1850dab69b787b6830c47c88457bb200713c83d2428d953baf9d35e836732bf4",
    ),
    Numbers(
        8193,
        4,
        212992,
        "5dff307e2ec3a9fb792d07228f5914eb1b614e13bbbd9e7766ebefb007865801",
    ),
    Numbers(
        20,
        300,
        53248,
        "dc1a76d17ce39626fc0fe11993e25bfe32012f45ca9ceae45c261ae1823b4288",
    ),
    Numbers(
        40000,
        3,
        737280,
        "e351d7b9babeb924f1837d96a66757bda8036d94a01ef8a72b35f410aa46c941",
    ),
];

/// The database of a table of numbers.
fn numbers_image(alloc: Global, rows: u64, columns: u64) -> Result<Pieces, NoMemory> {
    let mut image = Image::new(alloc);
    let leaves = numbers(alloc, image.next_place(), rows, columns)?;
    let tree = TablePages::of(alloc, leaves)?.finish()?;
    image.push(b"t", &definition(alloc, b"t", columns)?, tree)?;
    image.finish()
}

#[test]
fn tables_of_numbers_are_those_that_sqlite_read(rt: HostRuntime) -> Result<(), NoMemory> {
    for case in &NUMBERS {
        let text = numbers_image(rt.alloc(), case.0, case.1)?;
        assert!(rt; is_made(rt.alloc(), &text, (case.2, case.3))?);
    }
    Ok(())
}

/// Lengths of texts with which a record just fits into a cell or a page, and others.
const LIMITS: [u32; 36] = [
    4050, 4051, 4052, 4053, 4054, 4055, 4056, 4057, 4058, 4059, 4060, 4061, 4062, 4063, 4064, 4065,
    4066, 4067, 4068, 4069, 4070, 8150, 8151, 8152, 8153, 8154, 8155, 8156, 8157, 8158, 8159, 8160,
    0, 1, 20000, 1000000,
];

const LIMITS_MADE: Made = (
    1_228_800,
    "57be0f002119df0465e19d0814b611bfc3b9f7047e84408c484471a4ca0c3c8f",
);

/// The database of a table of these texts.
fn texts_image(alloc: Global, lengths: &[u32]) -> Result<Pieces, NoMemory> {
    let mut image = Image::new(alloc);
    let mut leaves = Leaves::new(alloc, image.next_place());
    push_texts(alloc, &mut leaves, 0, lengths)?;
    let tree = TablePages::of(alloc, leaves)?.finish()?;
    image.push(b"t", &definition(alloc, b"t", 2)?, tree)?;
    image.finish()
}

#[test]
fn texts_round_the_limits_of_a_page_are_those_that_sqlite_read(
    rt: HostRuntime,
) -> Result<(), NoMemory> {
    let text = texts_image(rt.alloc(), &LIMITS)?;
    assert!(rt; is_made(rt.alloc(), &text, LIMITS_MADE)?);
    Ok(())
}

/// A block of short texts.
fn block(alloc: Global, base: u64) -> Result<Leaves, NoMemory> {
    let mut leaves = Leaves::new(alloc, base);
    for row in 0..8192 {
        push_texts(alloc, &mut leaves, row, &[5])?;
    }
    Ok(leaves)
}

/// Long texts behind that block, and a short one.
fn long_texts(alloc: Global, base: u64) -> Result<Leaves, NoMemory> {
    let mut leaves = Leaves::new(alloc, base);
    push_texts(alloc, &mut leaves, 8192, &[4062, 10, 9000])?;
    Ok(leaves)
}

/// A block and long texts behind it as one tree, made apart: the second where it stands, and first where it can't.
fn two_groups(alloc: Global, base: u64) -> Result<Option<TablePages>, NoMemory> {
    let mut pages = TablePages::new(alloc, base);
    let first = block(alloc, 0)?;
    if !first.holds_at(pages.next_place()) {
        return Ok(None);
    }
    pages.push(first)?;
    let second = long_texts(alloc, 0)?;
    if second.holds_at(pages.next_place()) {
        return Ok(None);
    }
    let again = long_texts(alloc, pages.next_place())?;
    if !again.holds_at(pages.next_place()) {
        return Ok(None);
    }
    pages.push(again)?;
    Ok(Some(pages))
}

/// The database of that table, and of one of numbers behind it.
fn two_tables(alloc: Global) -> Result<Option<Pieces>, NoMemory> {
    let mut image = Image::new(alloc);
    let Some(pages) = two_groups(alloc, image.next_place())? else {
        return Ok(None);
    };
    image.push(b"t", &definition(alloc, b"t", 2)?, pages.finish()?)?;
    let leaves = numbers(alloc, image.next_place(), 300, 3)?;
    let tree = TablePages::of(alloc, leaves)?.finish()?;
    image.push(b"u", &definition(alloc, b"u", 3)?, tree)?;
    Ok(Some(image.finish()?))
}

const TWO_MADE: Made = (
    159_744,
    "5a66aee3e6a359c8ef064ed97d5b0a140b9dd771cbf61df71c719e936de83ebe",
);

/// Whether two tables are as another program made them.
fn are_two_tables(alloc: Global) -> Result<bool, NoMemory> {
    match two_tables(alloc)? {
        Some(text) => is_made(alloc, &text, TWO_MADE),
        None => Ok(false),
    }
}

#[test]
fn groups_written_apart_are_the_table_that_sqlite_read(rt: HostRuntime) -> Result<(), NoMemory> {
    assert!(rt; are_two_tables(rt.alloc())?);
    Ok(())
}
