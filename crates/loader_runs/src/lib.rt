//! Runs of the whole loader, for the crates that test it: `loader_tests` and the program `loader_cases`. A `Run` has
//! words, the files that its source holds, and an `Outside`, which says how source and sink in memory move bytes and
//! which of their calls fail. Its `Reply` is a status and what the sink has taken. A `Watcher` is told of claims, scans and
//! reads. These functions promise nothing; the clauses of some are what the loader requires of its callers.
#![tactic(auto)]

mod cut;
mod inputs;
mod outside;
mod reply;
mod run;
mod status;
mod watched;

pub use cut::Cut;
pub use inputs::{extend, repeated};
pub use outside::{IN_PIECES, Outside, ROOMY, WHOLE};
pub use reply::Reply;
pub use run::{File, Run};
pub use status::{hand_in, status_of, words_of};
pub use watched::Watcher;
