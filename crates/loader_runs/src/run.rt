//! One run over a source and a sink in memory.
use crate::cut::Cut;
use crate::outside::Outside;
use crate::reply::Reply;
use crate::status::{status_of, words_of};
use crate::watched::{WatchedSource, Watcher};
use csv_source::{MemorySink, MemorySource, NoMemory};
use std::alloc::Global;
use std::sync::Wait;
use std::thread::Threads;

/// A name, and the bytes under it.
pub type File<'a> = (&'a str, &'a [u8]);

/// Words, the files that the source holds, and how the outside behaves.
#[derive(Clone, Copy)]
pub struct Run<'w, 'f> {
    pub words: &'w [&'w str],
    pub files: &'f [File<'f>],
    pub outside: Outside,
    /// The ranges, where the words give none.
    pub cut: Option<Cut>,
}

impl Run<'_, '_> {
    fn words(&self, alloc: Global) -> Result<Vec<String>, NoMemory> {
        let mut words = words_of(alloc, self.words)?;
        if let Some(cut) = self.cut {
            cut.add_to(alloc, &mut words)?;
        }
        Ok(words)
    }

    /// A source that holds its files.
    pub fn source(&self, alloc: Global) -> Result<MemorySource, NoMemory> {
        let mut source = MemorySource::new(alloc);
        for (name, input) in self.files {
            source.put(name, input)?;
        }
        source.piece(self.outside.source_piece);
        if let Some(call) = self.outside.failing_source_call {
            source.fail_call(call)?;
        }
        Ok(source)
    }

    /// A sink that has taken nothing.
    pub fn sink(&self, alloc: Global) -> Result<MemorySink, NoMemory> {
        let mut sink = MemorySink::with_room(alloc, self.outside.room)?;
        sink.piece(self.outside.sink_piece);
        if let Some(call) = self.outside.failing_sink_call {
            sink.fail_call(call)?;
        }
        Ok(sink)
    }

    /// The status that its words come to.
    fn status<R: Threads + Wait + Sync, W: Watcher>(
        &self,
        rt: &R,
        alloc: Global,
        watcher: &W,
        sink: &mut MemorySink,
    ) -> Result<u8, NoMemory> {
        let words = self.words(alloc)?;
        let mut source = WatchedSource::new(self.source(alloc)?, watcher);
        status_of(rt, alloc, &words, &mut source, sink, watcher)
    }

    /// What its words come to under a watcher.
    pub fn reply<R: Threads + Wait + Sync, W: Watcher>(
        &self,
        rt: &R,
        alloc: Global,
        watcher: &W,
    ) -> Result<Reply, NoMemory> {
        let mut sink = self.sink(alloc)?;
        let status = self.status(rt, alloc, watcher, &mut sink)?;
        Ok(Reply::new(status, sink))
    }

    /// Whether under a watcher its words come to this status and this text.
    pub fn comes_to<R: Threads + Wait + Sync, W: Watcher>(
        &self,
        rt: &R,
        alloc: Global,
        watcher: &W,
        status: u8,
        text: &[u8],
    ) -> bool {
        match self.reply(rt, alloc, watcher) {
            Ok(reply) => reply.is(status, text),
            Err(NoMemory) => false,
        }
    }
}
