//! What comes of one run.
use csv_source::MemorySink;

/// A status, and the text that the sink has taken.
#[derive(Drop)]
pub struct Reply {
    status: u8,
    sink: MemorySink,
}

impl Reply {
    pub fn new(status: u8, sink: MemorySink) -> Reply {
        Reply { status, sink }
    }

    pub fn status(&self) -> u8 {
        self.status
    }

    pub fn text(&self) -> &[u8] {
        self.sink.taken()
    }

    /// Whether it has this status and this text.
    pub fn is(&self, status: u8, text: &[u8]) -> bool {
        self.status == status && self.text() == text
    }
}
