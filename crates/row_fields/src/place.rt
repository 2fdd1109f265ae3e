//! The place of a value.

/// Where a field's value stands: in some bytes, from one place up to another.
#[derive(Clone, Copy)]
pub struct Place<'a> {
    /// The row, or the values that had to be unescaped, one after another.
    pub bytes: &'a [u8],
    /// The place of the value's first byte.
    pub from: usize,
    /// The place behind its last byte.
    pub end: usize,
}
