//! The pages of an SQLite database file ("Database File Format", sections 1.3 to 1.6), made in memory.
//!
//! Rows are laid out in leaves, a block of 8,192 rows at a time, and a long record goes on in pages of its own: `Leaves` does
//! that, so that several workers can write groups of blocks side by side. `TablePages` joins what they wrote without a copy and
//! puts the pages above the leaves behind them, which gives a `Tree`. `Image` is the whole file: the trees of tables, the list
//! of tables, and the first page in front. What is written is a function of the rows, the names and the definitions alone.
//! For users of the library too: nothing here speaks of CSV.
#![tactic(auto)]

mod cells;
mod chain;
mod child;
mod closed_leaves;
mod first_page;
mod image;
pub mod laws;
mod leaves;
mod levels;
mod locks;
mod number;
mod packing;
mod schema_table;
mod table_pages;
mod tree;

pub use child::Child;
pub use image::Image;
pub use leaves::Leaves;
pub use table_pages::TablePages;
pub use tree::Tree;
