// The keys of columns in an archive.
ghost use Rattle.std.specs.Prelude.{◌≡◌, ◌<◌, ◌^◌, ◌++◌, length, map, true, IfOk, OnOk};
ghost use Rattle.std.specs.Fmt.{digit_glyph};
ghost use Rattle.npz_writer.specs.Keys.{column_keys, is_spelled, key_byte, key_text};

use csv_source::NoMemory;
use db_writer::names_apart;
use std::alloc::Global;
use value_types::Names;

/// The most bytes of a name's text. With the suffix of a key, the name of its array and `.npy` they fit the two bytes of a length.
pub const KEY_LIMIT: usize = 65_500;

/// The byte of a hexadecimal digit.
fn hex_digit(value: u8) -> u8
    requires { value < 16 }
    ensures { result ≡ digit_glyph true value }
{
    if value < 10 {
        b'0' + value
    } else {
        b'A' + (value - 10)
    }
}

/// Whether a byte of a name is spelled.
pub(crate) fn is_spelled(byte: u8) -> bool
    ensures { result ≡ is_spelled byte }
{
    matches!(byte, 0..=31 | 127 | b'%' | b'/' | b'\\' | b':')
}

/// Appends a byte of a name.
fn push_byte(text: &mut Vec<u8>, byte: u8) -> Result<(), NoMemory>
    ensures { OnOk result (text.new.items ≡ text.old.items ++ key_byte byte) }
{
    if is_spelled(byte) {
        text.extend_from_slice(&[b'%', hex_digit(byte / 16), hex_digit(byte % 16)])?;
        return Ok(());
    }
    text.push(byte)?;
    Ok(())
}

/// The text of a name.
fn key_text(alloc: Global, name: &[u8]) -> Result<Vec<u8>, NoMemory>
    ensures { IfOk result (λ text. text.items ≡ key_text name.now) }
{
    let mut text = Vec::with_capacity(alloc, name.len())?;
    for byte in name {
        push_byte(&mut text, *byte)?;
    }
    Ok(text)
}

/// The texts of names.
fn key_texts(alloc: Global, names: &Names) -> Result<Names, NoMemory>
    ensures texts { IfOk result (λ texts. texts ≡ map key_text names.now) }
    ensures few { IfOk result (λ texts. length names.now < 2 ^ 64) }
{
    let mut texts = Names::new(alloc);
    for column in 0..names.len() {
        let text = key_text(alloc, names.get(column))?;
        texts.push(&text)?;
    }
    Ok(texts)
}

/// The keys of columns, by their names.
pub(crate) fn column_keys(alloc: Global, names: &Names) -> Result<Names, NoMemory>
    ensures keys { IfOk result (λ keys. keys ≡ column_keys names.now) }
    ensures few { IfOk result (λ keys. length names.now < 2 ^ 64) }
{
    let texts = key_texts(alloc, names)?;
    names_apart(alloc, &texts)
}
