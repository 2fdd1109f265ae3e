//! The reply to the words of a command line: an ending, with what was found out, and a text. The words name files, one or
//! several in a list; a `Loader` reads them one after another, each under what is found in the first one, and what they come
//! to is answered by a report, by a table as CSV, as a database or as arrays, or by what its columns hold. The rows of a text
//! are made as it is written; what that can't do without is had before, so a reply that was made doesn't want memory. What the
//! reply is to be is defined over the words and the files, by one reading of each. It serves `csv_loader` alone, which writes
//! it.
#![tactic(auto)]

mod answering;
mod arrays;
mod batch;
mod context;
mod database;
mod ending;
mod files;
mod fitting;
mod further_words;
pub mod laws;
mod loader;
mod loading;
mod profile;
mod rejects;
mod reply;
mod reply_text;
mod replying;
mod sampling;
mod several;
mod showing;
mod sniffed_head;
mod split_head;
mod splitting;
mod status;

pub use database::COLUMN_LIMIT;
pub use ending::Ending;
pub use reply::Reply;
pub use replying::reply_to;
pub use split_head::HEAD_LIMIT;
pub use status::Status;
