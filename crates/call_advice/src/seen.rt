// What is remembered of a file that was opened.
use crate::content::FRONT;
use std::alloc::Global;

/// A file's first bytes, and how many of it were read.
#[derive(Drop)]
pub struct SeenFile {
    front: Vec<u8>,
    read: u64,
}

impl SeenFile {
    /// A file of which nothing was read yet.
    pub fn new(alloc: Global) -> SeenFile {
        SeenFile {
            front: Vec::new(alloc),
            read: 0,
        }
    }

    /// The first bytes, as far as they were read.
    pub fn front(&self) -> &[u8] {
        &self.front
    }

    /// How many bytes were read.
    pub fn read(&self) -> u64 {
        self.read
    }

    /// Goes on by bytes that were read. Where memory is wanting, only a line for a person knows less.
    pub fn advance(&mut self, bytes: &[u8]) {
        self.read = self.read.saturating_add(bytes.len() as u64);
        let wanted = FRONT.saturating_sub(self.front.len());
        let _ = self
            .front
            .extend_from_slice(&bytes[..bytes.len().min(wanted)]);
    }
}
