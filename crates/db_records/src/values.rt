// Values of a row: the type of each, and its bytes.
ghost use Rattle.std.specs.Prelude.{◌≡◌, ◌+◌, ◌*◌, ◌^◌, ◌<◌, ◌≤◌, ◌++◌, ℕ, List, [], if◌then◌else◌, length, pos, OnOk};
ghost use Rattle.std.specs.Int.{bytes_high_first};
ghost use Rattle.sqlite_value.specs.declared.value.Value.TheVariants.{Blob, Int, Null, Text};
ghost use Rattle.value_types.specs.Spelled.{IsSpelled};
ghost use Rattle.value_types.specs.ValueText.{value_text};
ghost use Rattle.db_records.specs.Record.{type_bytes, value_bytes};
ghost use Rattle.db_records.specs.Varint.{varint};
ghost use Rattle.sqlite_record.specs.Serial.{int_serial, serial_size, width_of};

use crate::varint::{push_small, push_varint};
use csv_source::NoMemory;
use text_pieces::Draft;
use value_types::Value;

/// From so many bytes on the type of a text or of bytes isn't counted.
const MOST_BYTES: usize = 1 << 62;

/// The type of a text without bytes. One byte more is two more.
const TEXT: u64 = 13;

/// The type of bytes that are no text, where there are none.
const BLOB: u64 = 12;

/// The types of numbers that take one byte to eight.
const SERIALS: [u64; 8] = [1, 2, 3, 4, 5, 5, 6, 6];

/// How many bytes a number takes, by its type.
const SIZES: [u64; 10] = [0, 1, 2, 3, 4, 6, 8, 8, 0, 0];

/// So many bytes hold a value's text, and what is written over behind it.
const VALUE_ROOM: usize = 32;

/// Appends the type of so many bytes of a kind.
#[inline(always)]
fn push_type(types: &mut Draft, kind: u64, len: usize) -> Result<(), NoMemory>
    requires known { kind ≤ 13 }
    ensures ok { OnOk result (types.new.text ≡ types.old.text ++ varint (kind + 2 * len)) }
{
    // A type of one byte is told by one test.
    if len < 58 {
        return push_small(types, kind + 2 * len as u64);
    }
    if len >= MOST_BYTES {
        return Err(NoMemory);
    }
    push_varint(types, kind + 2 * len as u64)
}

/// Appends the type of a text of so many bytes.
#[inline(always)]
fn push_text_type(types: &mut Draft, len: usize) -> Result<(), NoMemory>
    ensures { (text : List ℕ) → length text ≡ len → OnOk result (types.new.text ≡ types.old.text ++ type_bytes (Text text)) }
{
    push_type(types, TEXT, len)
}

/// Appends the type of so many bytes of a kind, and these.
#[inline(always)]
fn push_sized(types: &mut Draft, body: &mut Draft, kind: u64, bytes: &[u8]) -> Result<(), NoMemory>
    requires known { kind ≤ 13 }
    ensures types { OnOk result (types.new.text ≡ types.old.text ++ varint (kind + 2 * length bytes.now)) }
    ensures body { OnOk result (body.new.text ≡ body.old.text ++ bytes.now) }
{
    push_type(types, kind, bytes.len())?;
    body.append(bytes)
}

/// Appends the type of a value's text and this text, which is printed where it stands.
#[inline(always)]
pub fn push_printed(types: &mut Draft, body: &mut Draft, value: &Value) -> Result<(), NoMemory>
    requires { IsSpelled value.now }
    ensures types { OnOk result (types.new.text ≡ types.old.text ++ type_bytes (Text (value_text value.now))) }
    ensures body { OnOk result (body.new.text ≡ body.old.text ++ value_bytes (Text (value_text value.now))) }
{
    body.make_room(VALUE_ROOM)?;
    let before = body.len();
    body.put_value(value);
    push_text_type(types, body.len() - before)
}

/// Appends the type of a text and its bytes.
#[inline(always)]
pub fn push_text(types: &mut Draft, body: &mut Draft, text: &[u8]) -> Result<(), NoMemory>
    ensures types { OnOk result (types.new.text ≡ types.old.text ++ type_bytes (Text text.now)) }
    ensures body { OnOk result (body.new.text ≡ body.old.text ++ value_bytes (Text text.now)) }
{
    push_sized(types, body, TEXT, text)
}

/// Appends the type of bytes that are no text, and these bytes.
#[inline(always)]
pub fn push_blob(types: &mut Draft, body: &mut Draft, blob: &[u8]) -> Result<(), NoMemory>
    ensures types { OnOk result (types.new.text ≡ types.old.text ++ type_bytes (Blob blob.now)) }
    ensures body { OnOk result (body.new.text ≡ body.old.text ++ value_bytes (Blob blob.now)) }
{
    push_sized(types, body, BLOB, blob)
}

/// How many bytes a number and its sign take, without the first of them, where this many steps lead to it from 0 or from -1.
#[inline(always)]
fn bytes_behind(steps: u64) -> usize
    requires { steps < 2 ^ 63 }
    ensures below { steps < 2 ^ (8 * result + 7) }
    ensures reached { 2 ^ (8 * result) ≤ 2 * steps + 1 }
    ensures most { result ≤ 7 }
{
    (64 - steps.leading_zeros()) as usize / 8
}

/// The type of a number, neither 0 nor 1, that so many steps lead to from 0 or from -1. Numbers of different sizes follow one
/// another: a look into a table takes no jump that depends on them.
#[inline(always)]
fn width_of(steps: u64) -> u64
    requires { steps < 2 ^ 63 }
    ensures { result ≡ width_of steps }
{
    SERIALS[bytes_behind(steps)]
}

/// The type of a number.
#[inline(always)]
fn int_serial(number: i64) -> u64
    ensures value { result ≡ int_serial number }
    ensures small { result < 10 }
{
    let steps = if number < 0 {
        (-1 - number) as u64
    } else {
        number as u64
    };
    if number == 0 || number == 1 {
        return 8 + steps;
    }
    width_of(steps)
}

/// How many bytes a number of a type takes.
#[inline(always)]
fn int_size(serial: u64) -> u64
    requires { serial < 10 }
    ensures { result ≡ serial_size serial }
{
    SIZES[serial as usize]
}

/// Appends the last bytes of a number, at most eight. All eight are stored: that takes a store of a fixed length, and no call.
#[inline(always)]
fn push_last_bytes(body: &mut Draft, number: u64, size: usize) -> Result<(), NoMemory>
    requires { size ≤ 8 }
    ensures ok { OnOk result (body.new.text ≡ body.old.text ++ bytes_high_first size number) }
{
    let bytes = (number << ((64 - 8 * size) % 64)).to_be_bytes();
    body.append_front(&bytes, size)
}

/// Appends the type of a truth, which has no bytes.
#[inline(always)]
#[tactic(auto, unfolding(sqlite_record::specs::Serial::serial_size))]
pub fn push_truth(types: &mut Draft, truth: bool) -> Result<(), NoMemory>
    ensures none { value_bytes (Int (if truth then pos 1 else pos 0)) ≡ [] }
    ensures types { OnOk result (types.new.text ≡ types.old.text ++ type_bytes (Int (if truth then pos 1 else pos 0))) }
{
    push_small(types, 8 + u64::from(truth))
}

/// Appends the type of a number and its bytes.
#[inline(always)]
pub fn push_integer(types: &mut Draft, body: &mut Draft, number: i64) -> Result<(), NoMemory>
    ensures types { OnOk result (types.new.text ≡ types.old.text ++ type_bytes (Int number)) }
    ensures body { OnOk result (body.new.text ≡ body.old.text ++ value_bytes (Int number)) }
{
    let serial = int_serial(number);
    push_small(types, serial)?;
    let size = int_size(serial) as usize;
    push_last_bytes(body, number.cast_unsigned(), size)
}

/// Appends the type of null, which has no bytes.
#[inline(always)]
pub fn push_null(types: &mut Draft) -> Result<(), NoMemory>
    ensures types { OnOk result (types.new.text ≡ types.old.text ++ type_bytes Null) }
{
    push_small(types, 0)
}
