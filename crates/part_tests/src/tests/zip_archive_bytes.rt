//! Checksums and archives, as others make them: `bench/zip_archives.py` prints the bytes that Python's zipfile writes for the same
//! files, and reads them again.
ghost use Rattle.std.specs.Prelude.{◌≤◌, length, All, IfOk, OnOk};

use csv_source::{Bytes, NoMemory};
use std::alloc::Global;
use zip_archive::{Crc32, Entry, NAME_LIMIT, directory, local_header};

/// A text and its checksum.
struct Summed(&'static str, u32);

const SUMMED: [Summed; 4] = [
    Summed("", 0),
    Summed("a", 0xE8B7_BE43),
    Summed("123456789", 0xCBF4_3926),
    Summed("The quick brown fox jumps over the lazy dog", 0x414F_A339),
];

/// The checksum of two slices.
fn sum_of(front: &[u8], rest: &[u8]) -> u32 {
    let mut sum = Crc32::new();
    sum.update(front);
    sum.update(rest);
    sum.value()
}

#[test]
fn a_text_has_its_checksum_wherever_it_is_cut(rt: HostRuntime) {
    for row in &SUMMED {
        let bytes = row.0.as_bytes();
        assert!(rt; sum_of(bytes, b"") == row.1);
        for at in 0..bytes.len() {
            let (front, rest) = bytes.split_at(at);
            assert!(rt; sum_of(front, rest) == row.1);
        }
    }
}

/// Bytes to base 16, 44 a line, and how many they are.
struct Written(usize, &'static [&'static str]);

/// A digit to base 16.
fn digit(value: u8) -> u8 {
    b"0123456789abcdef"[(value % 16) as usize]
}

/// Whether a byte stands at a place.
fn has_byte(written: &Written, place: usize, byte: u8) -> bool {
    let Some(line) = written.1.get(place / 44) else {
        return false;
    };
    let digits = line.as_bytes();
    let at = place % 44 * 2;
    at + 1 < digits.len() && digits[at] == digit(byte / 16) && digits[at + 1] == digit(byte % 16)
}

/// Whether these bytes are written.
fn are_written(bytes: &[u8], written: &Written) -> bool {
    for (place, byte) in bytes.iter().enumerate() {
        if !has_byte(written, place, *byte) {
            return false;
        }
    }
    bytes.len() == written.0
}

/// A file as it is told.
fn entry_of(alloc: Global, name: &str, crc: u32, size: u64) -> Result<Entry, NoMemory>
    ensures { IfOk result (λ entry. length entry.name ≤ NAME_LIMIT) }
{
    if name.len() > NAME_LIMIT {
        return Err(NoMemory);
    }
    Ok(Entry {
        name: Bytes::copy_of(alloc, name.as_bytes())?,
        crc,
        length: size,
    })
}

/// One more file.
fn push_entry(entries: &mut Vec<Entry>, entry: Entry) -> Result<(), NoMemory>
    requires before { All (λ entry. length entry.name ≤ NAME_LIMIT) entries.old.items }
    requires name { length entry.name ≤ NAME_LIMIT }
    ensures { OnOk result (All (λ entry. length entry.name ≤ NAME_LIMIT) entries.new.items) }
{
    entries.push(entry)?;
    Ok(())
}

/// An archive of these files.
fn archive(alloc: Global, files: &[(&str, &str)]) -> Result<Vec<u8>, NoMemory> {
    let mut bytes = Vec::new(alloc);
    let mut entries = Vec::new(alloc);
    for (name, text) in files {
        let entry = entry_of(alloc, name, sum_of(text.as_bytes(), b""), text.len() as u64)?;
        bytes.extend_from_slice(&local_header(alloc, &entry)?)?;
        bytes.extend_from_slice(text.as_bytes())?;
        push_entry(&mut entries, entry)?;
    }
    bytes.extend_from_slice(&directory(alloc, &entries)?)?;
    Ok(bytes)
}

const NO_FILE: Written = Written(22, &["504b0506000000000000000000000000000000000000"]);

const TWO_FILES: Written = Written(
    217,
    &[
        "504b0304140000080000000021002639f4cb090000000900000006000000c3a42e6e70793132333435363738",
        "39504b0304140000080000000021000000000000000000000000000b000000c3b63a656e64732e6e7079504b",
        "01022d00140000080000000021002639f4cb0900000009000000060000000000000000000000000000000000",
        "c3a42e6e7079504b01022d00140000080000000021000000000000000000000000000b000000000000000000",
        "000000002d000000c3b63a656e64732e6e7079504b050600000000020002006d000000560000000000",
    ],
);

#[test]
fn files_are_archived(rt: HostRuntime) {
    let none = archive(rt.alloc(), &[]).expect(&rt, "memory");
    let files = [("ä.npy", "123456789"), ("ö:ends.npy", "")];
    let two = archive(rt.alloc(), &files).expect(&rt, "memory");
    assert!(rt; are_written(&none, &NO_FILE) && are_written(&two, &TWO_FILES));
}

/// From so many bytes on a length or a place stands in eight.
const LONG: u64 = 0xFFFF_FFFF;

const LONG_HEADER: Written = Written(
    56,
    &[
        "504b03042d0000080000000021002639f4cbffffffffffffffff06001400c3a42e6e707901001000ffffffff",
        "00000000ffffffff00000000",
    ],
);

const SHORTER_HEADER: Written = Written(
    36,
    &["504b0304140000080000000021002639f4cbfefffffffeffffff06000000c3a42e6e7079"],
);

/// The header of a file of so many bytes.
fn header(alloc: Global, length: u64) -> Result<Vec<u8>, NoMemory> {
    local_header(alloc, &entry_of(alloc, "ä.npy", 0xCBF4_3926, length)?)
}

#[test]
fn a_long_file_has_an_extra_field(rt: HostRuntime) {
    let long = header(rt.alloc(), LONG).expect(&rt, "memory");
    let shorter = header(rt.alloc(), LONG - 1).expect(&rt, "memory");
    assert!(rt; are_written(&long, &LONG_HEADER) && are_written(&shorter, &SHORTER_HEADER));
}

const BEHIND_LONG: Written = Written(
    298,
    &[
        "504b01022d002d00000800000000210001000000ffffffffffffffff06001400000000000000000000000000",
        "0000c3a42e6e707901001000ffffffff00000000ffffffff00000000504b01022d002d000008000000002100",
        "02000000fefffffffeffffff06000c0000000000000000000000ffffffffc3b62e6e70790100080037000000",
        "01000000504b01022d002d00000800000000210003000000070000000700000006000c000000000000000000",
        "0000ffffffffc3bc2e6e7079010008005900000002000000504b06062c000000000000002d002d0000000000",
        "0000000003000000000000000300000000000000c8000000000000008400000002000000504b060700000000",
        "4c0100000200000001000000504b05060000000003000300c8000000ffffffff0000",
    ],
);

/// What stands behind a long file, one that is shorter by one byte and one of seven bytes.
fn behind_long(alloc: Global) -> Result<Vec<u8>, NoMemory> {
    let mut entries = Vec::new(alloc);
    push_entry(&mut entries, entry_of(alloc, "ä.npy", 1, LONG)?)?;
    push_entry(&mut entries, entry_of(alloc, "ö.npy", 2, LONG - 1)?)?;
    push_entry(&mut entries, entry_of(alloc, "ü.npy", 3, 7)?)?;
    directory(alloc, &entries)
}

#[test]
fn places_behind_a_long_file_have_extra_fields(rt: HostRuntime) {
    let bytes = behind_long(rt.alloc()).expect(&rt, "memory");
    assert!(rt; are_written(&bytes, &BEHIND_LONG));
}

const MANY_END: Written = Written(
    98,
    &[
        "504b06062c000000000000002d002d000000000000000000ffff000000000000ffff000000000000d0ff2f00",
        "00000000e0ff1f0000000000504b060700000000b0ff4f000000000001000000504b050600000000ffffffff",
        "d0ff2f00e0ff1f000000",
    ],
);

const FEWER_END: Written = Written(22, &["504b050600000000fefffeffa0ff2f00c0ff1f000000"]);

/// The directory of so many empty files.
fn empty_files(alloc: Global, count: usize) -> Result<Vec<u8>, NoMemory> {
    let mut entries = Vec::new(alloc);
    for _ in 0..count {
        push_entry(&mut entries, entry_of(alloc, "ä", 0, 0)?)?;
    }
    directory(alloc, &entries)
}

/// Whether the directory of empty files ends as is written, from a place on.
fn ends(bytes: &[u8], place: usize, written: &Written) -> bool {
    match bytes.get(place..) {
        Some(end) => are_written(end, written),
        None => false,
    }
}

/// How many bytes of a directory tell an empty file.
const TOLD: usize = 48;

#[test]
fn many_files_are_counted_in_eight_bytes(rt: HostRuntime) {
    let many = empty_files(rt.alloc(), 65_535).expect(&rt, "memory");
    let fewer = empty_files(rt.alloc(), 65_534).expect(&rt, "memory");
    assert!(rt; ends(&many, 65_535 * TOLD, &MANY_END) && ends(&fewer, 65_534 * TOLD, &FEWER_END));
}
