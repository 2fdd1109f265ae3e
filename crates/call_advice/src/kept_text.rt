// A sink that remembers what was written.
ghost use Rattle.std.specs.Prelude.{◌≡◌};

use csv_source::{Failed, Sink};
use std::alloc::Global;

/// A sink and the first bytes that were written to it, so many at most.
#[derive(Drop)]
pub struct KeptText<K> {
    sink: K,
    most: usize,
    text: Vec<u8>,
}

impl<K: Sink> KeptText<K> {
    /// A sink to which nothing was written yet.
    pub fn new(alloc: Global, sink: K, most: usize) -> KeptText<K> {
        KeptText {
            sink,
            most,
            text: Vec::new(alloc),
        }
    }

    /// The sink itself.
    pub fn sink(&self) -> &K {
        &self.sink
    }

    /// The sink, to be ended.
    pub fn sink_mut(&mut self) -> &mut K {
        &mut self.sink
    }

    /// What was written, as far as it is kept.
    pub fn text(&self) -> &[u8] {
        &self.text
    }
}

impl<K: Sink> Sink for KeptText<K> {
    ghost taken = { λ s. K.taken s.sink };

    ghost faults = { λ s. K.faults s.sink };

    fn write(&mut self, piece: &[u8]) -> Result<usize, Failed> {
        let count = self.sink.write(piece)?;
        let wanted = self.most.saturating_sub(self.text.len()).min(count);
        // Where memory is wanting, only a line for a person knows less.
        let _ = self
            .text
            .extend_from_slice(piece.get(..wanted).unwrap_or(piece));
        Ok(count)
    }

    fn begin(&mut self, is_whole: bool) {
        self.sink.begin(is_whole);
    }
}
