//! The loaded table: typed columns in chunks.
//!
//! A column keeps its values in one vector of its type's width, and marks that say which of the first ones are null: a
//! column without nulls has no mark. Texts stand one behind another in one buffer. Where a chunk is packed, its BIGINT columns
//! keep the extent of their numbers, and, unless rows are few, of each number what it has over the least one, in as few bytes as
//! that needs: a packed column that is to grow is first made wide again. A chunk is some rows in columns of
//! their own, to which a row is appended cell by cell and finished, or taken back. A table is a list of chunks, so that
//! tables are joined without a copy, and a row's chunk is found by the rows before it. Contracts see a table as its
//! types, its rows of cells, and the number of rows that can be appended without memory.
//! For users of the library: `Table`; `Chunk` serves the crates that fill tables and write them.
#![tactic(auto)]

mod bigints;
mod chunk;
mod column;
mod columns;
mod nullable;
mod nullable_texts;
mod numbers;
mod packed_numbers;
mod stacking;
mod table;
mod unwrapping;

pub use chunk::Chunk;
pub use table::{Front, Table};
