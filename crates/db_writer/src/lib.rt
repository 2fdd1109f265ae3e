//! A loaded table and its rejects as an SQLite database.
//!
//! The database has three tables: the rows, typed, under a name of the caller's choice, and the two tables of rejects of
//! DuckDB's manual, `reject_scans` and `reject_errors`. Its text is one function of what was loaded: a header's page, the
//! pages of each table, and those of the list of tables (SQLite, "Database File Format"). Blocks of 8,192 rows begin a
//! page of their own, so that workers write groups of blocks side by side, and what each wrote is a piece of the text.
//! For users of the library: `write_database` of `Contents`; `names_apart`, `newline_bytes` and `truth_text` serve other writers
//! of the same columns and rejects.
#![tactic(auto)]

mod contents;
mod database;
mod definitions;
mod fields;
mod groups;
mod naming;
mod rejects;
mod row_writer;
mod rows;

pub use contents::Contents;
pub use database::write_database;
pub use naming::names_apart;
pub use rejects::{newline_bytes, truth_text};
