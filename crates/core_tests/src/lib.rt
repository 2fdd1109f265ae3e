//! Tests of the crates that read bytes, ranges, groups, windows and stages, from `byte_classes` to `pipe_load`, apart from them so
//! that each is proved once. Each module tests one crate by its public items: rows of data with what is wanted, taken from outside;
//! for `claim_board` and `chain_words` many orders beside a plain counter or array; and small data in ranges of a few bytes, by one
//! thread and by many, while gates hold or count what workers do. These functions promise nothing, so the edits that must be refused
//! stand in the crates that they test.
#![tactic(auto)]

#[cfg(test)]
mod tests;
