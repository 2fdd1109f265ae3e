//! The fields of a row are counted by one look at its bytes, and none is kept: in a row without quotes 64 bytes at a time, in
//! any other field by field. Where that doesn't show where a field ends, the row is read as any row.
mod bare_rows;
mod fields;
mod found_row;

pub use found_row::{FoundRow, next_filled};

/// A row without flaw: where it ends, how many fields it has, and how many of them are quoted.
#[derive(Clone, Copy)]
pub struct RowCount {
    pub end: usize,
    pub fields: usize,
    pub quoted: usize,
}
