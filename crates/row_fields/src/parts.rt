//! What is noted of a row as it is read.
ghost use Rattle.row_fields.specs.Reading.{IsBlank};

use crate::flaw::Flaw;
use crate::span::Span;
use std::alloc::Global;

/// What is noted of a row, beside its length. A flaw is written here where a row has one: answered by the functions that
/// read the row, it would be copied with every row, and few have one.
#[derive(Drop)]
pub struct Parts {
    /// The places of the row's fields.
    pub spans: Vec<Span>,
    /// The values that had to be unescaped, one after another.
    pub texts: Vec<u8>,
    /// Where the quoting of the row goes wrong.
    pub flaw: Option<Flaw>,
}

impl Parts {
    /// Nothing noted. The buffers will come from this allocator.
    pub fn new(alloc: Global) -> Parts
        ensures { IsBlank result }
    {
        Parts {
            spans: Vec::new(alloc),
            texts: Vec::new(alloc),
            flaw: None,
        }
    }

    /// Takes back what was noted. The buffers stay.
    pub fn clear(&mut self)
        ensures { IsBlank self.new }
    {
        self.spans.clear();
        self.texts.clear();
        self.flaw = None;
    }
}
