// The head of an array's file.
ghost use Rattle.std.specs.Prelude.{◌≡◌, ◌≤◌, length, IfOk, OnOk};
ghost use Rattle.npz_writer.specs.Npy.{header_text, npy_head, padded};

use csv_source::NoMemory;
use itoa::Buffer;
use std::alloc::Global;

/// So many bytes stand before the header: a format, its version, and the header's length.
const FRONT_SIZE: usize = 10;

/// The header of so many elements of a kind, before it is filled up.
fn header_text(alloc: Global, kind: &[u8], count: u64) -> Result<Vec<u8>, NoMemory>
    requires { length kind.now ≤ 8 }
    ensures value { IfOk result (λ text. text.items ≡ header_text kind.now count) }
    ensures short { IfOk result (λ text. length text.items ≤ 128) }
{
    let mut digits = Buffer::new();
    let mut text = Vec::from_slice(alloc, b"{'descr': '")?;
    text.extend_from_slice(kind)?;
    text.extend_from_slice(b"', 'fortran_order': False, 'shape': (")?;
    text.extend_from_slice(digits.format(count).as_bytes())?;
    text.extend_from_slice(b",), }")?;
    Ok(text)
}

/// Fills a header up, so that the bytes before the array's are a multiple of 64.
fn pad(text: &mut Vec<u8>) -> Result<(), NoMemory>
    requires { length text.old.items ≤ 128 }
    ensures { OnOk result (text.new.items ≡ padded text.old.items) }
{
    let spaces = 63 - (FRONT_SIZE + text.len()) % 64;
    text.resize(text.len() + spaces, b' ')?;
    text.push(b'\n')?;
    Ok(())
}

/// What stands before the bytes of so many elements of a kind.
#[tactic(auto, unfolding(crate::specs::Npy::npy_head))]
pub(crate) fn npy_head(alloc: Global, kind: &[u8], count: u64) -> Result<Vec<u8>, NoMemory>
    requires { length kind.now ≤ 8 }
    ensures { IfOk result (λ head. head.items ≡ npy_head kind.now count) }
{
    let mut header = header_text(alloc, kind, count)?;
    pad(&mut header)?;
    let mut head = Vec::from_slice(alloc, b"\x93NUMPY\x01\x00")?;
    head.extend_from_slice(&(header.len() as u16).to_le_bytes())?;
    head.extend_from_slice(&header)?;
    Ok(head)
}
