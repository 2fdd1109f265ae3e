//! Where a file can be cut into parts that are loaded by themselves.
//! A cut is a place at which a row begins that has at least one byte, and at which the bytes of a byte order mark don't
//! stand. A part begins at the data's start, and at the first cut at or behind each further multiple of a size. `Cuts` reads
//! the data piece by piece in constant memory beside the list of parts, and keeps for each part the bytes, physical lines
//! and rows before it. What it reads is the same whatever the pieces (`laws`).
//! It serves the crates above alone.
#![tactic(auto)]

mod block_rows;
pub mod cut_rule;
mod cuts;
mod first_cut;
mod last_byte;
pub mod laws;
mod part;
mod row_bytes;
mod row_count;
mod tally;

pub use cut_rule::{CutRule, MOST_SIZE};
pub use cuts::{Cuts, MOST_BYTES};
pub use part::Part;
pub use tally::Tally;
