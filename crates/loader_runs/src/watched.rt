//! A source whose reads are told, as a gate is told of claims and scans.
ghost use Rattle.std.specs.Prelude.{Some};

use csv_source::{Failed, Gate, MemorySource, OpenGate, Source};

/// A gate that is told of reads too.
pub trait Watcher: Gate {
    /// Called once before each read, with how many bytes the source has given.
    fn reading(&self, given: u64);
}

impl Watcher for OpenGate {
    fn reading(&self, _given: u64) {}
}

/// A source in memory that tells of its reads.
#[derive(Drop)]
pub struct WatchedSource<'a, W: Watcher> {
    source: MemorySource,
    given: u64,
    watcher: &'a W,
}

impl<'a, W: Watcher> WatchedSource<'a, W> {
    pub fn new(source: MemorySource, watcher: &'a W) -> WatchedSource<'a, W> {
        WatchedSource {
            source,
            given: 0,
            watcher,
        }
    }
}

impl<W: Watcher> Source for WatchedSource<'_, W> {
    ghost held = { λ s. Some s.source.files };

    ghost left = { λ s. Some s.source.left };

    ghost faults = { λ s. s.source.calls.faults };

    fn open(&mut self, name: &str) -> Result<(), Failed> {
        self.source.open(name)
    }

    fn read(&mut self, buf: &mut [u8]) -> Result<usize, Failed> {
        self.watcher.reading(self.given);
        let count = self.source.read(buf)?;
        self.given = self.given.saturating_add(count as u64);
        Ok(count)
    }
}
