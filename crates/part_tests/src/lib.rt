//! Tests of the crates of sources, words, tables and texts, apart from them so that each is proved once. Each module tests one
//! crate by its public items, where no clause says what is wanted or no run of the loader comes; all else of them is shown by the
//! lines of `loader_cases`. Databases are made and compared by their digests with those of another program, in which sqlite3 found
//! the same rows and nothing to complain of: `bench/database_images.py` makes, asks and prints them.
//! These functions promise nothing to callers, so the edits that must be refused stand in the crates that they test.
#![tactic(auto)]

#[cfg(test)]
mod tests;
