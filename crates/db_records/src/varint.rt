// Numbers of one to eight bytes, the most significant digits first.
ghost use Rattle.std.specs.Prelude.{◌≡◌, ◌≤◌, ◌<◌, ◌^◌, ◌++◌, length, OnOk};
ghost use Rattle.db_records.specs.Varint.{digits_before, marked, varint};

use csv_source::NoMemory;
use text_pieces::Draft;

/// Appends the last digits of a number to base 128, as many as asked, each with the mark that more follow.
fn push_marked(into: &mut Draft, count: u32, value: u64) -> Result<(), NoMemory>
    ensures ok { OnOk result (into.new.text ≡ into.old.text ++ marked count value) }
{
    if count > 0 {
        push_marked(into, count - 1, value / 128)?;
        into.append(&[128 + (value % 128) as u8])?;
    }
    Ok(())
}

/// How many digits stand before the last one.
#[inline(always)]
fn digits_before(value: u64) -> u32
    ensures { result ≡ digits_before value }
{
    if value < 1 << 7 {
        0
    } else if value < 1 << 14 {
        1
    } else if value < 1 << 21 {
        2
    } else if value < 1 << 28 {
        3
    } else if value < 1 << 35 {
        4
    } else if value < 1 << 42 {
        5
    } else if value < 1 << 49 {
        6
    } else {
        7
    }
}

/// How many bytes a number takes.
#[inline(always)]
pub fn varint_len(value: u64) -> usize
    ensures value { result ≡ length (varint value) }
    ensures within { result ≤ 8 }
{
    digits_before(value) as usize + 1
}

/// A number of three bytes.
#[inline(always)]
pub(crate) fn three_digits(value: u64) -> [u8; 3]
    requires { (2 ^ 14 ≤ value) × (value < 2 ^ 21) }
    ensures { result ≡ varint value }
{
    let front = value / 128;
    [
        128 + (front / 128 % 128) as u8,
        128 + (front % 128) as u8,
        (value % 128) as u8,
    ]
}

/// A number of four bytes.
#[inline(always)]
pub(crate) fn four_digits(value: u64) -> [u8; 4]
    requires { (2 ^ 21 ≤ value) × (value < 2 ^ 28) }
    ensures { result ≡ varint value }
{
    let front = value / 128;
    [
        128 + (front / 128 / 128 % 128) as u8,
        128 + (front / 128 % 128) as u8,
        128 + (front % 128) as u8,
        (value % 128) as u8,
    ]
}

/// Appends a number of three bytes or more.
fn push_long_varint(into: &mut Draft, value: u64) -> Result<(), NoMemory>
    requires long { 2 ^ 14 ≤ value }
    ensures ok { OnOk result (into.new.text ≡ into.old.text ++ varint value) }
{
    // Most rowids of large tables have three bytes or four.
    if value < 1 << 21 {
        return into.append(&three_digits(value));
    }
    if value < 1 << 28 {
        return into.append(&four_digits(value));
    }
    push_marked(into, digits_before(value), value / 128)?;
    into.append(&[(value % 128) as u8])
}

/// Appends a number of one byte.
#[inline(always)]
pub(crate) fn push_small(into: &mut Draft, value: u64) -> Result<(), NoMemory>
    requires small { value < 128 }
    ensures ok { OnOk result (into.new.text ≡ into.old.text ++ varint value) }
{
    into.push(value as u8)
}

/// Appends a number in its shortest form, where it is below 2^56: of a larger one the last eight digits.
#[inline(always)]
pub fn push_varint(into: &mut Draft, value: u64) -> Result<(), NoMemory>
    ensures ok { OnOk result (into.new.text ≡ into.old.text ++ varint value) }
{
    // Most numbers of a row have one byte or two.
    if value < 1 << 7 {
        return push_small(into, value);
    }
    if value < 1 << 14 {
        into.push(128 + (value / 128) as u8)?;
        return into.push((value % 128) as u8);
    }
    push_long_varint(into, value)
}
