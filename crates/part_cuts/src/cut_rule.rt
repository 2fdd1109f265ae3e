//! By what a file is cut.
use byte_classes::Dialect;

/// The most bytes of a size.
pub const MOST_SIZE: u64 = 1 << 32;

/// By what a file is cut: the dialect of its data, the size whose multiples parts begin at or behind, and the number of
/// columns, which tells whether blank rows count.
#[derive(Drop)]
pub struct CutRule {
    pub dialect: Dialect,
    /// In bytes; multiples are counted from the file's first byte.
    pub size: u64,
    pub columns: u64,
}
