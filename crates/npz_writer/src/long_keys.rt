// Columns whose names are too long for an archive.
ghost use Rattle.std.specs.Prelude.{◌≡◌, ◌≤◌, length};
ghost use Rattle.npz_writer.specs.Keys.{key_byte};
ghost use Rattle.npz_writer.specs.LongKeys.{is_long, long_key};

use crate::keys::{KEY_LIMIT, is_spelled};
use csv_sniffer::Sniffed;

/// How many bytes a byte of a name has in its text.
fn width(byte: u8) -> usize
    ensures value { result ≡ length (key_byte byte) }
    ensures few { result ≤ 3 }
{
    if is_spelled(byte) { 3 } else { 1 }
}

/// Whether the text of a name is too long.
fn is_long(name: &[u8]) -> bool
    ensures { result ≡ is_long name.now }
{
    let mut length = 0;
    for byte in name {
        length += width(*byte);
        if length > KEY_LIMIT {
            return true;
        }
    }
    false
}

/// The first column, from 0, whose name's text has more than `KEY_LIMIT` bytes.
pub fn long_key(sniffed: &Sniffed) -> Option<usize>
    ensures { result ≡ long_key sniffed.now }
{
    for column in 0..sniffed.names.len() {
        if is_long(sniffed.names.get(column)) {
            return Some(column);
        }
    }
    None
}
