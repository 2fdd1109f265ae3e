//! What a round of a pipelined load works with.
ghost use Rattle.std.specs.Prelude.{◌≤◌};
ghost use Rattle.load_options.specs.declared.limits.TheConstants.{THREADS};
ghost use Rattle.pipe_load.specs.Loading.{HasReach};

use crate::scanner::Scanner;
use csv_source::Gate;
use std::sync::Wait;
use std::thread::Threads;

/// Loads a round of the data by so many stages beside their reading.
#[derive(Drop)]
pub struct Pipeline<'r, 'a, R: Threads + Wait + Sync, G: Gate> {
    pub rt: &'r R,
    pub scanner: Scanner<'a, G>,
    pub threads: u32,
    ghost within: { (1 ≤ threads) × (threads ≤ THREADS.most) },
    ghost reaches: { HasReach scanner.ranges.context.now scanner.layout },
}
