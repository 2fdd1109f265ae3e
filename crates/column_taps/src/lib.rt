//! Observers of rows. A tap is shown the rows that were taken into a table, one after another, and at the end writes
//! lines on what it has seen: how many rows and cells there were, the least and the greatest number of each column,
//! the longest text of each column, or how many different texts there were. What contracts see of a tap is one value,
//! `Seen`: its kind with what it has seen. A row changes it by `step`, which may also answer that the tap is over its
//! bound, and `seen_lines` prints it. Taps stand in boxes that the caller makes, each in a `Slot`; a tap that is over
//! is dropped, and its slot keeps the number of that row. `course` is what a slot shows after some rows.
//! A row costs no allocation unless it is wider than all rows before it or has a text that a `DistinctTap` keeps.
//! For users of the library: the four taps, which `csv_loader::run` takes; slots and their feeding serve the crates above.
#![tactic(auto)]

mod columns;
mod count;
mod distinct;
mod feeding;
mod feeding_columns;
mod kind;
pub mod laws;
mod lines;
mod pairs;
mod showing;
mod slot;
mod span;
mod tap;
mod text_columns;
mod width;

pub use count::CountTap;
pub use distinct::DistinctTap;
pub use feeding::{feed, write_slots};
pub use feeding_columns::feed_columns;
pub use kind::{TapKind, Tapped};
pub use slot::Slot;
pub use span::SpanTap;
pub use tap::RowTap;
pub use width::WidthTap;
