//! Tests of the whole loader, apart from it so that each is proved once. Each makes runs of `loader_runs` and compares the
//! status and the text with what is wanted. What is words, files and a reply alone is no test here, but a line of
//! `loader_cases`, which costs no proof: here is what such a line can't say, as ranges that are counted, scans that wait for
//! reads, endings, and an input of 40 MB. A test is one assertion over a function that answers whether all is as wanted,
//! false where memory is refused: an exit beside an owned reply is proved slowly.
#![tactic(auto)]

#[cfg(test)]
mod tests;
