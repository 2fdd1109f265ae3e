//! What loads the data of inputs.

use range_scan::Context;
use std::alloc::Global;

/// What data are loaded with, whichever input they come from: in windows, or while stages scan what came.
#[derive(Drop)]
pub struct DataLoader<'a, R, G> {
    pub rt: &'a R,
    pub alloc: Global,
    pub context: &'a Context,
    /// The length of a range in bytes.
    pub range_size: u64,
    /// Whether the first error ends the load.
    pub stop: bool,
    /// How many workers or stages scan at most.
    pub threads: u32,
    pub gate: &'a G,
}
