//! A board from which workers draw the numbers of ranges, each number once.
//!
//! The board is one atomic word, from which a claim draws by a single fetch-add: a claim waits for nobody and is never tried again.
//! A drawer is one worker's right to draw. It is seen as what it knows: the numbers that it drew, whether all were drawn, and how many atomic steps it took.
//! The board's rule ties the word to all drawers, under every interleaving of their steps: each number below the word and the count
//! stands with exactly one drawer, once, and a drawer that is done saw the word reach the count (`specs/Rule.antt`).
//! Each kind of step keeps the rule by one lemma of `proofs/Keeps.antt`: `claims`, `splits` and `joins`; `opens` is the board at its start, and `ends` at its end.
//! For users of the library too: nothing here speaks of CSV.
#![tactic(auto)]

mod board;
mod claim;
mod drawer;
mod rule;

pub use board::Board;
pub use claim::Claim;
pub use drawer::Drawer;
