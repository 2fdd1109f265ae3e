//! What a database that is written is to a reader of the format.
//!
//! The reader's words are those of the kit's own crates, which know nothing of this writer: cells in pages, pages under a root,
//! records that go on in other pages. Each page that is written holds what was put into it; under the root of a tree stand the
//! records of its rows, in the order of their rowids; and the first page leads to the list of tables, which names their roots.
#![tactic(auto)]

pub mod laws;
