//! One run in ranges of several sizes, on several threads.
use crate::reply::Reply;
use crate::run::Run;
use csv_source::{NoMemory, OpenGate};
use std::alloc::Global;
use std::sync::Wait;
use std::thread::Threads;

/// Ranges of so many bytes, scanned by so many threads.
#[derive(Clone, Copy)]
pub struct Cut {
    pub range_size: usize,
    pub threads: usize,
}

/// All bytes in one range, on one thread.
const AT_ONCE: Cut = Cut {
    range_size: 67_108_864,
    threads: 1,
};

impl Cut {
    /// Puts its two words behind others.
    pub fn add_to(self, alloc: Global, words: &mut Vec<String>) -> Result<(), NoMemory> {
        words.push(format!(in alloc; "range_size={}", self.range_size)?)?;
        words.push(format!(in alloc; "threads={}", self.threads)?)?;
        Ok(())
    }
}

impl Run<'_, '_> {
    /// What words that give neither ranges nor threads come to in such ranges.
    fn reply_in<R: Threads + Wait + Sync>(
        &self,
        rt: &R,
        alloc: Global,
        cut: Cut,
    ) -> Result<Reply, NoMemory> {
        let run = Run {
            cut: Some(cut),
            ..*self
        };
        run.reply(rt, alloc, &OpenGate)
    }

    /// Whether they come to this reply in ranges of so many bytes, on some numbers of threads.
    fn is_kept<R: Threads + Wait + Sync>(
        &self,
        rt: &R,
        alloc: Global,
        range_size: usize,
        wanted: &Reply,
    ) -> Result<bool, NoMemory> {
        for threads in [1, 2, 4, 64] {
            let cut = Cut {
                range_size,
                threads,
            };
            let reply = self.reply_in(rt, alloc, cut)?;
            if !reply.is(wanted.status(), wanted.text()) {
                return Ok(false);
            }
        }
        Ok(true)
    }

    /// Whether such words come to one reply in ranges of some sizes and in one range on one thread.
    pub fn is_one_in<R: Threads + Wait + Sync>(
        &self,
        rt: &R,
        alloc: Global,
        sizes: &[usize],
    ) -> Result<bool, NoMemory> {
        let wanted = self.reply_in(rt, alloc, AT_ONCE)?;
        for range_size in sizes {
            if !self.is_kept(rt, alloc, *range_size, &wanted)? {
                return Ok(false);
            }
        }
        Ok(true)
    }
}
