//! Bytes of an input.
ghost use Rattle.std.specs.Prelude.{◌+◌, ◌<◌, ◌^◌, length};

/// Bytes of an input, and the place of the first of them in it.
#[derive(Clone, Copy, Debug)]
pub struct View<'a> {
    pub bytes: &'a [u8],
    pub base: u64,
    ghost room: { base + length bytes.now < 2 ^ 62 },
}
