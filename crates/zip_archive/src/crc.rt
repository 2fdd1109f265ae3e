// The checksum of a file.
ghost use Rattle.std.specs.Prelude.{◌≡◌};
ghost use Rattle.zip_archive.specs.Crc.{byte_step, crc_after, crc_start, crc_told};

use crate::zeros::{behind_eight_zeros, behind_none};
use std::marker::Model;

/// The CRC-32 of bytes that come in slices: the register so far.
#[derive(Drop)]
pub struct Crc32 {
    register: u32,
}

impl Model for Crc32 {
    ghost use Rattle.std.specs.Prelude.{ℕ};

    ghost Value = { ℕ };

    ghost view = { λ c. c.register };
}

/// The register once a byte has gone in.
#[inline(always)]
fn byte_step(register: u32, byte: u8) -> u32
    ensures { result ≡ byte_step register byte }
{
    let mixed = register ^ u32::from(byte);
    behind_none((mixed % 256) as u8) ^ (mixed / 256)
}

/// The register once eight bytes have gone in.
#[inline(always)]
fn eight_steps(register: u32, bytes: &[u8; 8]) -> u32
    ensures { result ≡ crc_after register bytes.now }
{
    behind_eight_zeros(u64::from(register) ^ u64::from_le_bytes(*bytes))
}

impl Crc32 {
    /// Of no bytes.
    pub fn new() -> Crc32
        ensures { result ≡ crc_start }
    {
        Crc32 {
            register: 0xFFFF_FFFF,
        }
    }

    /// Goes on with more bytes.
    pub fn update(&mut self, bytes: &[u8])
        ensures { self.new ≡ crc_after self.old bytes.now }
    {
        let mut register = self.register;
        let mut rest = bytes;
        while let Some((front, behind)) = rest.split_first_chunk::<8>() {
            register = eight_steps(register, front);
            rest = behind;
        }
        for byte in rest {
            register = byte_step(register, *byte);
        }
        self.register = register;
    }

    /// The CRC-32 of the bytes so far.
    pub fn value(&self) -> u32
        ensures { result ≡ crc_told self.now }
    {
        self.register ^ 0xFFFF_FFFF
    }
}
