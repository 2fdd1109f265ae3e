//! The parts of a file as they come of a source. The head of a file is held by whoever looks at it, as a `FilePiece`;
//! from there the file is read to its end, piece by piece in memory that is used again, and each piece goes through the
//! `Cuts` of the data. The last two bytes of a piece stay for the next one, since a cut has to see them.
//! It serves `loader_reply` alone.
#![tactic(auto)]

mod file_piece;
mod passing;
mod whole_file;

pub use file_piece::FilePiece;
pub use whole_file::cut_file;
