//! Why a file was found to be as it is: all candidates with their scores, the values that keep columns from other types,
//! and words that may be worth a try. It is made only where it is asked for, from the sample again.
mod entries;
mod explanation;
mod gathering;
mod hints;
mod line_count;
mod null_hints;
mod separator_line;
mod whys;
mod zero_hints;

pub use explanation::{Explanation, explain};
pub use hints::Hint;
pub use whys::{VALUE_LIMIT, Why};
