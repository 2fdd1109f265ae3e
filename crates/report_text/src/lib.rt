//! The report of a request as text, line by line: what was found, the rows, the rejects and their numbers, and the stats.
//! A line has parts with a bar between each two, and ends with LF; bytes that can't stand in it are spelled with a
//! backslash. A report without rows is one text. One with rows is a head, the rows, and a tail: workers render the rows
//! block by block as they are written, walking the table chunk by chunk, so that a row takes no memory of its own and a cell
//! needs no search. Rows for which no memory is left are written straight to the sink, cell by cell.
//! `make_text` makes a valid text of any length from a number, for tests and measurements.
//! For users of the library: `Outcome` with `render`, `render_loaded` and `render_batch`, and `make_text`.
#![tactic(auto)]

mod batch;
mod explained;
mod faults;
mod found;
mod lines;
mod loaded;
mod made;
mod outcome;
mod rejects;
mod report_rows;
mod rows;
mod runs;
mod shown;
mod split;
mod straight;
mod text;

pub use batch::{all_in, render_batch};
pub use loaded::render_loaded;
pub use made::make_text;
pub use outcome::{Loaded, Mismatch, Outcome, Stats};
pub use report_rows::ReportRows;
pub use text::render;
