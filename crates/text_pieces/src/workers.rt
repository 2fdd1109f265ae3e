// Who makes the lines of rows.
use std::alloc::Global;

/// The runtime in which threads are made, and how many of them may make lines at most.
#[derive(Drop)]
pub struct Workers<'a, R> {
    pub rt: &'a R,
    pub alloc: Global,
    pub threads: u32,
}
