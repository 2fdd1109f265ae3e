//! The program's answer to its words: a text of its own, or the loader's over the program's four taps. It stands below the
//! program so that what it promises, and the edits that its clauses refuse, are proved apart from the lines for a person.
#![tactic(auto)]

mod answering;
pub mod help;
mod loading;

pub use answering::{OwnText, answer, own_text};
