// Bytes as they are shown in a report.
ghost use Rattle.std.specs.Prelude.{◌≡◌, ◌<◌, ◌≤◌, ◌++◌, drop, false, length, IfOk, OnOk};
ghost use Rattle.std.specs.Fmt.{digit_glyph};
ghost use Rattle.csv_source.specs.Shown.{shown_byte, shown, shown_option, hex_digits};
ghost use Rattle.text_pieces.specs.Writes.{Writes};
ghost use Rattle.report_text.specs.Moves.{HasShown};

use crate::runs::run_end;
use csv_source::{Failed, NoMemory, Sink};
use text_pieces::{Draft, write_text};

/// The byte of a hexadecimal digit.
fn hex_digit(value: u8) -> u8
    requires { value < 16 }
    ensures { result ≡ digit_glyph false value }
{
    if value < 10 {
        b'0' + value
    } else {
        b'a' + (value - 10)
    }
}

/// Appends the two hexadecimal digits of a byte.
fn push_hex(into: &mut Draft, byte: u8) -> Result<(), NoMemory>
    ensures { OnOk result (into.new.text ≡ into.old.text ++ hex_digits byte) }
{
    into.append(&[hex_digit(byte / 16), hex_digit(byte % 16)])
}

/// Appends a byte as it is shown.
pub(crate) fn push_shown_byte(into: &mut Draft, byte: u8) -> Result<(), NoMemory>
    ensures { OnOk result (into.new.text ≡ into.old.text ++ shown_byte byte) }
{
    match byte {
        b'\\' => into.append(b"\\\\"),
        b'|' => into.append(b"\\|"),
        b'\n' => into.append(b"\\n"),
        b'\r' => into.append(b"\\r"),
        b'\t' => into.append(b"\\t"),
        0..=31 | 127 => {
            into.append(b"\\x")?;
            push_hex(into, byte)
        }
        _ => into.push(byte),
    }
}

/// Appends the bytes from `at` on up to the first that is spelled, and that one; answers the place behind it.
#[inline(always)]
fn push_stretch(into: &mut Draft, bytes: &[u8], at: usize) -> Result<usize, NoMemory>
    requires within { at < length bytes.now }
    ensures ok { IfOk result (λ next. HasShown into.old.text into.new.text bytes.now at next) }
{
    let end = run_end(bytes, at);
    into.append_run(bytes, at, end)?;
    if end == bytes.len() {
        return Ok(end);
    }
    push_shown_byte(into, bytes[end])?;
    Ok(end + 1)
}

/// Appends bytes as they are shown, runs of ordinary bytes whole: few bytes of a report are spelled.
pub(crate) fn push_shown(into: &mut Draft, bytes: &[u8]) -> Result<(), NoMemory>
    ensures { OnOk result (into.new.text ≡ into.old.text ++ shown bytes.now) }
{
    let mut at = 0;
    while at < bytes.len() {
        at = push_stretch(into, bytes, at)?;
    }
    Ok(())
}

/// Appends an optional byte as it is shown, nothing where there is none.
pub(crate) fn push_shown_option(into: &mut Draft, byte: Option<u8>) -> Result<(), NoMemory>
    ensures { OnOk result (into.new.text ≡ into.old.text ++ shown_option byte) }
{
    match byte {
        Some(byte) => push_shown_byte(into, byte),
        None => Ok(()),
    }
}

/// Writes a byte as it is shown.
fn write_shown_byte<K: Sink>(sink: &mut K, byte: u8) -> Result<(), Failed>
    ensures { Writes (K.taken sink.old) (K.taken sink.new) (K.faults sink.old) (K.faults sink.new) result (shown_byte byte) }
{
    match byte {
        b'\\' => write_text(sink, b"\\\\"),
        b'|' => write_text(sink, b"\\|"),
        b'\n' => write_text(sink, b"\\n"),
        b'\r' => write_text(sink, b"\\r"),
        b'\t' => write_text(sink, b"\\t"),
        0..=31 | 127 => {
            let hex = [b'\\', b'x', hex_digit(byte / 16), hex_digit(byte % 16)];
            write_text(sink, &hex)
        }
        _ => write_text(sink, &[byte]),
    }
}

/// Writes bytes as they are shown, with no memory.
pub(crate) fn write_shown<K: Sink>(sink: &mut K, bytes: &[u8]) -> Result<(), Failed>
    ensures { Writes (K.taken sink.old) (K.taken sink.new) (K.faults sink.old) (K.faults sink.new) result (shown bytes.now) }
{
    let mut at = 0;
    let mut end = run_end(bytes, 0);
    while end < bytes.len() {
        write_text(sink, &bytes[at..end])?;
        write_shown_byte(sink, bytes[end])?;
        at = end + 1;
        end = run_end(bytes, at);
    }
    write_text(sink, &bytes[at..])
}
