//! Texts that are written part by part.
//!
//! A text in pieces is one text without a copy: its pieces are written one after another. Short pieces are joined as they
//! come, so that a short text is written at once. A text of rows never stands whole in memory: its lines are made block by
//! block, round by round, by workers that draw the blocks of the next round while this one is written in order. The buffers are
//! used again; where one finds no memory, its rows are written straight. What writers of texts share stands here too: a text
//! under way, whose values and runs are stored in room that was made ready before; bytes that pass a test, found by lanes; and writes
//! that want no memory.
//! It serves the crates above alone.
#![tactic(auto)]

mod beside;
mod block;
mod desk;
mod desks;
mod draft;
mod fit;
mod pieces;
mod room;
mod round;
mod rounds;
mod row_lines;
mod rowed;
mod runs;
mod search;
mod spare;
mod workers;
mod writing;

pub use draft::{CELL_ROOM, Draft};
pub use pieces::Pieces;
pub use row_lines::RowLines;
pub use rowed::RowedText;
pub use search::{Probe, first_where};
pub use workers::Workers;
pub use writing::{write_text, write_value};
