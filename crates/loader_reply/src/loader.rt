// What a load is done with.
ghost use Rattle.std.specs.Prelude.{◌≡◌};

use load_options::Options;
use std::alloc::Global;
use text_pieces::Workers;

/// What files are read and answered with, beside the source that they come from: the runtime in which threads are made, the
/// options of the request and the gate that is told of each claim and each scan.
#[derive(Drop)]
pub struct Loader<'a, R, G> {
    pub rt: &'a R,
    pub alloc: Global,
    pub options: &'a Options,
    pub gate: &'a G,
}

impl<'a, R, G> Loader<'a, R, G> {
    /// Who makes the rows of a text.
    pub fn workers(&self) -> Workers<'a, R>
        ensures { result.threads ≡ self.now.options.now.threads }
    {
        Workers {
            rt: self.rt,
            alloc: self.alloc,
            threads: self.options.threads,
        }
    }
}
