// A text under way.
ghost use Rattle.std.specs.Prelude.{◌≡◌, ◌≤◌, ◌<◌, ◌-◌, ◌++◌, ◌∷◌, [], length, slice_range, take, OnErr, OnOk};
ghost use Rattle.value_types.specs.Spelled.{IsSpelled};
ghost use Rattle.value_types.specs.ValueText.{value_text};

use crate::room::{grow, store};
use csv_source::NoMemory;
use std::alloc::Global;
use std::marker::Model;
use value_types::{Value, put_value};

/// So many bytes hold a mark before a value, the value, and what is written over behind it.
pub const CELL_ROOM: usize = 33;

/// A short run is stored with what stands behind it, so many bytes in all: one store of a register.
const SHORT_RUN: usize = 16;

/// So many bytes of a longer text.
const LONG_RUN: usize = 64;

/// A text that grows by short pieces. They are stored over bytes that were made ready before, many at once: a piece that finds
/// room takes a store, and no call.
#[derive(Drop)]
pub struct Draft {
    bytes: Vec<u8>,
    end: usize,
}

impl Model for Draft {
    ghost use Rattle.std.specs.Prelude.{◌≤◌, ◌-◌, length, take};
    ghost use Rattle.text_pieces.specs.DraftView.{DraftView};

    ghost Value = { DraftView };

    ghost view = { λ d. record {
      text = take d.end d.bytes.items;
      room = length d.bytes.items - d.end;
    } };

    ghost invariant = { λ d. d.end ≤ length d.bytes.items };
}

impl Draft {
    /// The empty text.
    pub fn new(alloc: Global) -> Draft
        ensures { result.text ≡ [] }
    {
        Draft {
            bytes: Vec::new(alloc),
            end: 0,
        }
    }

    /// A text that grows on behind what it has.
    pub fn of(text: Vec<u8>) -> Draft
        ensures { result.text ≡ text.items }
    {
        let end = text.len();
        Draft { bytes: text, end }
    }

    /// The text so far.
    pub fn as_slice(&self) -> &[u8]
        ensures { result.now ≡ self.now.text }
    {
        &self.bytes[..self.end]
    }

    /// The text alone.
    pub fn into_text(self) -> Vec<u8>
        ensures { result.items ≡ self.text }
    {
        let Draft { mut bytes, end } = self;
        bytes.truncate(end);
        bytes
    }

    pub fn len(&self) -> usize
        ensures { result ≡ length self.now.text }
    {
        self.end
    }

    /// Drops what stands behind so many bytes.
    pub fn truncate(&mut self, len: usize)
        ensures { self.new.text ≡ take len self.old.text }
    {
        self.end = self.end.min(len);
    }

    /// Reserves memory for more bytes behind the text. Where so much can't be had at once, it may still grow into less.
    pub fn reserve(&mut self, more: usize)
        ensures { self.new.text ≡ self.old.text }
    {
        let room = self.bytes.len() - self.end;
        let _ = self.bytes.reserve(more.saturating_sub(room));
    }

    /// Makes room for some bytes.
    #[inline(always)]
    pub fn make_room(&mut self, count: usize) -> Result<(), NoMemory>
        ensures ok { OnOk result (count ≤ self.new.room) }
        ensures same { self.new.text ≡ self.old.text }
    {
        if self.bytes.len() - self.end >= count {
            return Ok(());
        }
        grow(&mut self.bytes, self.end, count)
    }

    /// Appends a byte that finds room.
    #[inline(always)]
    pub fn put(&mut self, byte: u8)
        requires room { 0 < self.old.room }
        ensures text { self.new.text ≡ self.old.text ++ byte ∷ [] }
        ensures room { self.new.room ≡ self.old.room - 1 }
    {
        self.bytes[self.end] = byte;
        self.end += 1;
    }

    /// Appends the text of a value, which finds room with what is written over behind it.
    #[inline(always)]
    pub fn put_value(&mut self, value: &Value)
        requires spelled { IsSpelled value.now }
        requires room { 32 ≤ self.old.room }
        ensures text { self.new.text ≡ self.old.text ++ value_text value.now }
    {
        self.end = put_value(value, &mut self.bytes, self.end);
    }

    /// Appends a byte.
    #[inline(always)]
    pub fn push(&mut self, byte: u8) -> Result<(), NoMemory>
        ensures ok { OnOk result (self.new.text ≡ self.old.text ++ byte ∷ []) }
        ensures err { OnErr result (self.new.text ≡ self.old.text) }
    {
        self.make_room(1)?;
        self.put(byte);
        Ok(())
    }

    /// Appends bytes, or nothing.
    #[inline(always)]
    pub fn append(&mut self, text: &[u8]) -> Result<(), NoMemory>
        ensures ok { OnOk result (self.new.text ≡ self.old.text ++ text.now) }
        ensures err { OnErr result (self.new.text ≡ self.old.text) }
    {
        self.make_room(text.len())?;
        store(&mut self.bytes, self.end, text);
        self.end += text.len();
        Ok(())
    }

    /// Appends the first of some bytes, or nothing. All are stored: where their number is fixed that takes no call.
    #[inline(always)]
    pub fn append_front(&mut self, block: &[u8], count: usize) -> Result<(), NoMemory>
        requires within { count ≤ length block.now }
        ensures ok { OnOk result (self.new.text ≡ self.old.text ++ take count block.now) }
        ensures err { OnErr result (self.new.text ≡ self.old.text) }
    {
        self.make_room(block.len())?;
        store(&mut self.bytes, self.end, block);
        self.end += count;
        Ok(())
    }

    /// Appends the bytes between two places, or nothing. Those of a run of at most so many are stored with what stands behind it,
    /// so many in all: that takes a copy of a fixed length, and no call.
    #[inline(always)]
    fn append_by(
        &mut self,
        bytes: &[u8],
        from: usize,
        end: usize,
        width: usize,
    ) -> Result<(), NoMemory>
        requires ordered { from ≤ end }
        requires within { end ≤ length bytes.now }
        ensures ok { OnOk result (self.new.text ≡ self.old.text ++ slice_range bytes.now from end) }
        ensures err { OnErr result (self.new.text ≡ self.old.text) }
    {
        if end - from > width || bytes.len() - from < width {
            return self.append(&bytes[from..end]);
        }
        self.append_front(&bytes[from..from + width], end - from)
    }

    /// Appends the bytes between two places, or nothing.
    #[inline(always)]
    pub fn append_run(&mut self, bytes: &[u8], from: usize, end: usize) -> Result<(), NoMemory>
        requires ordered { from ≤ end }
        requires within { end ≤ length bytes.now }
        ensures ok { OnOk result (self.new.text ≡ self.old.text ++ slice_range bytes.now from end) }
        ensures err { OnErr result (self.new.text ≡ self.old.text) }
    {
        self.append_by(bytes, from, end, SHORT_RUN)
    }

    /// Appends another text, or nothing.
    #[inline(always)]
    pub fn append_draft(&mut self, other: &Draft) -> Result<(), NoMemory>
        ensures ok { OnOk result (self.new.text ≡ self.old.text ++ other.now.text) }
        ensures err { OnErr result (self.new.text ≡ self.old.text) }
    {
        if other.end <= SHORT_RUN {
            return self.append_by(&other.bytes, 0, other.end, SHORT_RUN);
        }
        self.append_by(&other.bytes, 0, other.end, LONG_RUN)
    }
}
