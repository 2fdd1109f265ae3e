//! Bytes as a line shows them.
ghost use Rattle.std.specs.Prelude.{◌<◌};

use csv_source::NoMemory;
use std::alloc::Global;

/// What a byte stands behind.
#[derive(Clone, Copy)]
enum Behind {
    Plain,
    Backslash,
    BackslashX,
    /// A backslash, `x` and this digit.
    Digit(u8),
}

/// The value of a hexadecimal digit; 0 for any other byte.
fn digit_value(byte: u8) -> u8
    ensures { result < 16 }
{
    match byte {
        b'0'..=b'9' => byte - b'0',
        b'a'..=b'f' => byte - b'a' + 10,
        _ => 0,
    }
}

/// What a letter behind a backslash stands for.
fn control(letter: u8) -> u8 {
    match letter {
        b'n' => b'\n',
        b'r' => b'\r',
        b't' => b'\t',
        _ => letter,
    }
}

/// The bytes of a text in which `\n`, `\r` and `\t` are those of C, `\x` and two digits are a byte, and any other byte
/// behind a backslash is itself.
pub fn unescaped(alloc: Global, text: &str) -> Result<Vec<u8>, NoMemory> {
    let mut bytes = Vec::new(alloc);
    let mut behind = Behind::Plain;
    for byte in text.as_bytes() {
        behind = match (behind, *byte) {
            (Behind::Plain, b'\\') => Behind::Backslash,
            (Behind::Plain, byte) => {
                bytes.push(byte)?;
                Behind::Plain
            }
            (Behind::Backslash, b'x') => Behind::BackslashX,
            (Behind::Backslash, letter) => {
                bytes.push(control(letter))?;
                Behind::Plain
            }
            (Behind::BackslashX, digit) => Behind::Digit(digit),
            (Behind::Digit(upper), lower) => {
                bytes.push(16 * digit_value(upper) + digit_value(lower))?;
                Behind::Plain
            }
        };
    }
    Ok(bytes)
}
