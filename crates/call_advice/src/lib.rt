//! What is said of a call to the person who made it: why its words are refused and what may have been meant, why a file can't
//! be read or is no CSV, and calls that may be copied; and what has to be known for that: the words, and what is remembered of
//! the files that were read and of the text that was written.
//! No clause says what stands on a line: the program's lines are tried from outside, by `.ci/messages`.
//! It serves the program alone.
#![tactic(auto)]

mod again;
mod bad_option;
mod bad_value;
mod conflict;
mod content;
mod given;
mod kept_text;
mod long_part;
mod pasted;
mod read_fault;
mod reading_words;
mod refusal;
mod rejects_call;
mod seen;
mod value_advice;

pub use again::{push_again, push_content};
pub use content::{Content, NOT_UTF8};
pub use given::{
    command_word, count_of_pieces, file_at, gives, is_given, number_given, subject, value_of,
    word_giving,
};
pub use kept_text::KeptText;
pub use long_part::push_long_part;
pub use pasted::{most_kept, push_pasted};
pub use read_fault::push_read_fault;
pub use reading_words::{WordsFault, read_words};
pub use refusal::push_refusal;
pub use rejects_call::{push_lister, push_too_many_faults};
pub use seen::SeenFile;
