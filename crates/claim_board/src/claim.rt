//! What a claim answers.

/// What a claim answers.
#[derive(Clone, Copy, Debug, PartialEq, Eq)]
pub enum Claim {
    /// This number, counted from 0, is the drawer's, and no other drawer's.
    Range(u64),
    /// All numbers were drawn.
    AllDrawn,
}
