//! What each column of a table holds, as CSV text.
//!
//! A profile takes in tables one after another and keeps of each column how many cells are null, its different values, up to
//! a bound, the least and the greatest value, and the lengths of the shortest and the longest text: it is that of all rows
//! that were taken in, so that a caller need keep none of them. Workers share the columns of a table. `write_profile` makes a
//! line of names and one for each column.
//! For users of the library: `Profile` and `write_profile`.
#![tactic(auto)]

mod column;
mod columns;
mod different;
mod fields;
pub mod laws;
mod lengths;
mod limits;
mod nulls;
mod parts;
mod profile;
mod span;
mod writing;

pub use limits::MOST_DIFFERENT;
pub use profile::Profile;
pub use writing::write_profile;
