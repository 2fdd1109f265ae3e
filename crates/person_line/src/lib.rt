//! A line for a person: how texts, words, bytes and numbers are put on it, so that nothing of them moves the cursor of a
//! terminal, and a word that stands in a command can be copied into a shell; and a line on a terminal that is taken away before
//! anything else is written.
//! No clause says what stands on a line: the program's lines are tried from outside, by `.ci/messages`.
//! It serves the crates above alone.
#![tactic(auto)]

mod excerpt;
mod glyphs;
mod line;
mod screen_line;
mod shell;

pub use excerpt::{MOST, push_excerpt};
pub use line::{Line, Part};
pub use screen_line::{BehindLine, ScreenLine};
pub use shell::{can_be_copied, folder_of, push_list};
