// The cells of a page under way.
ghost use Rattle.std.specs.Prelude.{◌≡◌, ◌==◌, ◌+◌, ◌*◌, ◌≤◌, ◌<◌, ◌++◌, [], ◌∷◌, length, nat_le, OnOk};
ghost use Rattle.db_records.specs.Cell.{cell_bytes};
ghost use Rattle.db_pages.specs.Page.{joined, leaf_page};
ghost use Rattle.db_records.specs.Record.{record_of, IsShortRecord};
ghost use Rattle.db_records.specs.Varint.{varint};
ghost use Rattle.csv_source.specs.Lists.{is_empty};
ghost use Rattle.db_pages.specs.Laid.{long_cell};
ghost use Rattle.db_pages.specs.Levels.{inner_page};
ghost use Rattle.db_pages.specs.Numbers.{four_bytes, number_of};

use crate::chain::{long_cell_len, push_long_cell};
use crate::child::Child;
use crate::number::{PAGE, number_bytes};
use crate::packing::{head_of, push_packed};
use csv_source::NoMemory;
use db_records::{append, cell_len, push_cell, push_values_cell, push_varint, varint_len};
use std::alloc::Global;
use std::marker::Model;
use text_pieces::Draft;

/// How many bytes stand before the places of a leaf's cells.
const LEAF_HEAD: usize = 8;

/// The kind of a leaf of a table.
const LEAF: u8 = 13;

/// How many bytes stand before the places of the cells of a page above others.
const INNER_HEAD: usize = 12;

/// The kind of a page above others.
const INNER: u8 = 5;

/// Appends the number of a page and the last rowid under it.
fn push_divider_cell(into: &mut Draft, child: Child) -> Result<(), NoMemory>
    ensures ok { OnOk result (into.new.text ≡ into.old.text ++ (four_bytes (number_of child.place) ++ varint child.last)) }
{
    into.append(&number_bytes(child.place)?)?;
    push_varint(into, child.last)
}

/// Cells that fit into a page, one behind another. After an error there is none.
#[derive(Drop)]
pub(crate) struct Cells {
    bytes: Draft,
    sizes: Vec<u16>,
}

impl Model for Cells {
    ghost use Rattle.std.specs.Prelude.{ℕ, List};

    ghost Value = { List (List ℕ) };

    ghost use Rattle.db_pages.specs.Cut.{cut, Fits};

    ghost view = { λ s. cut s.sizes.items s.bytes.text };

    ghost invariant = { λ s. Fits s.sizes.items s.bytes.text };
}

impl Cells {
    pub(crate) fn new(alloc: Global) -> Cells
        ensures { result ≡ [] }
    {
        Cells {
            bytes: Draft::new(alloc),
            sizes: Vec::new(alloc),
        }
    }

    #[inline(always)]
    pub(crate) fn is_empty(&self) -> bool
        ensures { result ≡ is_empty self.now }
    {
        self.sizes.is_empty()
    }

    /// Says that they fit into a leaf, and does nothing.
    #[inline(always)]
    pub(crate) fn fit(&self)
        ensures { 8 + 2 * length self.now + length (joined self.now) ≤ 4096 }
    {
        let _ = &self.sizes;
    }

    /// Whether one more cell of so many bytes fits into a leaf with these.
    #[inline(always)]
    pub(crate) fn has_room(&self, size: usize) -> bool
        requires within { size ≤ 4096 }
        ensures { result ≡ nat_le (8 + 2 * (length self.now + 1) + length (joined self.now) + size) 4096 }
    {
        LEAF_HEAD + 2 * (self.sizes.len() + 1) + self.bytes.len() + size <= PAGE
    }

    pub(crate) fn clear(&mut self)
        ensures { self.new ≡ [] }
    {
        self.bytes.truncate(0);
        self.sizes.clear();
    }

    /// Appends the cell of a row whose record stays whole.
    #[inline(always)]
    pub(crate) fn push_row(&mut self, rowid: u64, row: &[u8]) -> Result<(), NoMemory>
        requires short { length row.now ≤ 4061 }
        requires room { 8 + 2 * (length self.old + 1) + length (joined self.old) + length (cell_bytes rowid row.now) ≤ 4096 }
        ensures ok { OnOk result (self.new ≡ self.old ++ cell_bytes rowid row.now ∷ []) }
    {
        self.sizes.push(cell_len(rowid, row) as u16)?;
        match push_cell(&mut self.bytes, rowid, row) {
            Ok(()) => Ok(()),
            Err(fault) => {
                self.bytes.truncate(0);
                self.sizes.clear();
                Err(fault)
            }
        }
    }

    /// Appends the cell, of so many bytes, of a row whose record is made of few types and some values, and stays whole.
    #[inline(always)]
    pub(crate) fn push_values(
        &mut self,
        size: usize,
        rowid: u64,
        types: &Draft,
        body: &Draft,
    ) -> Result<(), NoMemory>
        requires short { IsShortRecord types.now.text body.now.text }
        requires size { size ≡ length (cell_bytes rowid (record_of types.now.text body.now.text)) }
        requires room { 8 + 2 * (length self.old + 1) + length (joined self.old) + size ≤ 4096 }
        ensures ok { OnOk result (self.new ≡ self.old ++ cell_bytes rowid (record_of types.now.text body.now.text) ∷ []) }
    {
        self.sizes.push(size as u16)?;
        match push_values_cell(&mut self.bytes, rowid, types, body) {
            Ok(()) => Ok(()),
            Err(fault) => {
                self.bytes.truncate(0);
                self.sizes.clear();
                Err(fault)
            }
        }
    }

    /// Appends the cell of a row whose record goes on at a place.
    pub(crate) fn push_long(&mut self, rowid: u64, row: &[u8], place: u64) -> Result<(), NoMemory>
        requires room { 8 + 2 * (length self.old + 1) + length (joined self.old) + length (long_cell 0 rowid row.now) ≤ 4096 }
        ensures ok { OnOk result (self.new ≡ self.old ++ long_cell place rowid row.now ∷ []) }
    {
        self.sizes.push(long_cell_len(rowid, row) as u16)?;
        match push_long_cell(&mut self.bytes, rowid, row, place) {
            Ok(()) => Ok(()),
            Err(fault) => {
                self.bytes.truncate(0);
                self.sizes.clear();
                Err(fault)
            }
        }
    }

    /// Appends the cell of a page above others: the number of one of them and the last rowid under it.
    pub(crate) fn push_divider(&mut self, child: Child) -> Result<(), NoMemory>
        requires room { 8 + 2 * (length self.old + 1) + length (joined self.old) + 12 ≤ 4096 }
        ensures ok { OnOk result (self.new ≡ self.old ++ (four_bytes (number_of child.place) ++ varint child.last) ∷ []) }
        ensures count { OnOk result (length self.new ≡ length self.old + 1) }
        ensures size { OnOk result (length (joined self.new) ≤ length (joined self.old) + 12) }
    {
        self.sizes.push(4 + varint_len(child.last) as u16)?;
        match push_divider_cell(&mut self.bytes, child) {
            Ok(()) => Ok(()),
            Err(fault) => {
                self.bytes.truncate(0);
                self.sizes.clear();
                Err(fault)
            }
        }
    }

    /// Appends a page above others, of these cells and the page on the right of them.
    pub(crate) fn push_inner(&self, into: &mut Vec<u8>, right: u64) -> Result<(), NoMemory>
        requires room { 12 + 2 * length self.now + length (joined self.now) ≤ 4096 }
        ensures ok { OnOk result (into.new.items ≡ into.old.items ++ inner_page (four_bytes (number_of right)) self.now) }
    {
        append(into, &head_of(INNER, &self.sizes, self.bytes.as_slice()))?;
        append(into, &number_bytes(right)?)?;
        push_packed(into, INNER_HEAD, &self.sizes, self.bytes.as_slice())
    }

    /// Appends a leaf of the cells.
    pub(crate) fn push_leaf(&self, into: &mut Vec<u8>) -> Result<(), NoMemory>
        ensures ok { OnOk result (into.new.items ≡ into.old.items ++ leaf_page self.now) }
    {
        append(into, &head_of(LEAF, &self.sizes, self.bytes.as_slice()))?;
        push_packed(into, LEAF_HEAD, &self.sizes, self.bytes.as_slice())
    }
}
