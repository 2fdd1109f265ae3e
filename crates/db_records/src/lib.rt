//! Rows as the records of an SQLite database ("Database File Format", sections 1.6 and 2.1).
//!
//! A number takes one to eight bytes. A record is a header with the type of each value, and the values behind one another;
//! a row is filled value by value into two drafts, of types and of values, and then written as one record. A cell is a
//! record with its length and its rowid. What is written reads back by the kit's own definitions of the format.
//! It serves `db_pages` and `db_writer` alone.
#![tactic(auto)]

mod appending;
mod cell;
pub mod laws;
mod record;
mod values;
mod varint;

pub use appending::{append, push_zeros};
pub use cell::{
    cell_head_len, cell_len, push_cell, push_cell_head, push_values_cell, values_cell_len,
};
pub use record::push_record;
pub use values::{push_blob, push_integer, push_null, push_printed, push_text, push_truth};
pub use varint::{push_varint, varint_len};
