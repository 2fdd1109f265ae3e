//! What lies before a place of a file.

/// How many bytes, physical line ends and rows of a file lie before a place.
#[derive(Clone, Copy, Debug, PartialEq, Eq)]
pub struct Tally {
    pub bytes: u64,
    /// Physical line ends, inside quotes too: LF, CR and CR LF each end a line once.
    pub lines: u64,
    /// Rows that count: where there are several columns a row of no bytes doesn't.
    pub rows: u64,
}
