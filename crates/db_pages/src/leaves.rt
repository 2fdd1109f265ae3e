// Rows in leaves.
ghost use Rattle.std.specs.Prelude.{◌≡◌, ◌==◌, ◌+◌, ◌*◌, ◌%◌, ◌<◌, ◌≤◌, [], ◌∷◌, if◌then◌else◌, length, IfOk, OnOk};
ghost use Rattle.db_pages.specs.Page.{joined};
ghost use Rattle.db_records.specs.Record.{record_of, IsShortRecord};
ghost use Rattle.db_pages.specs.Grown.{closed, filled, holds_at};
ghost use Rattle.db_pages.specs.Laid.{ended, finished, next_place, roomy, with_long, with_rows, with_short};

use crate::cells::Cells;
use crate::chain::{MOST_LOCAL, local_len, long_cell_len, push_chain};
use crate::child::Child;
use crate::closed_leaves::ClosedLeaves;
use crate::number::PAGE;
use csv_source::NoMemory;
use db_records::{cell_len, values_cell_len};
use std::alloc::Global;
use std::marker::Model;
use text_pieces::Draft;

/// How many rows a block has: its end ends a leaf, so that the pages of a block depend on its rows alone.
const BLOCK: u64 = 8192;

/// Rows laid out in the leaves of a table, behind so many pages of the file. After an error it may only be let go.
#[derive(Drop)]
pub struct Leaves {
    base: u64,
    pages: Vec<u8>,
    leaves: Vec<Child>,
    cells: Cells,
    last: u64,
}

impl Model for Leaves {
    ghost use Rattle.db_pages.specs.Grown.{Filled};

    ghost Value = { Filled };

    ghost view = { λ s. record { base = s.base; laid = record { pages = s.pages.items; leaves = s.leaves.items; cells = s.cells; last = s.last } } };
}

/// The place of the next page, behind so many others and these.
fn next_place(base: u64, pages: &[u8]) -> Result<u64, NoMemory>
    ensures { IfOk result (λ place. place ≡ next_place base pages.now) }
{
    base.checked_add((pages.len() / PAGE) as u64)
        .ok_or(NoMemory)
}

/// Whether so many bytes are those of so many leaves.
fn are_leaves(len: usize, leaves: usize) -> bool
    ensures { result ≡ (len == 4096 * leaves) }
{
    len % PAGE == 0 && len / PAGE == leaves
}

impl Leaves {
    /// No rows, behind so many pages.
    pub fn new(alloc: Global, base: u64) -> Leaves
        ensures { result ≡ filled base 1 [] }
    {
        Leaves {
            base,
            pages: Vec::new(alloc),
            leaves: Vec::new(alloc),
            cells: Cells::new(alloc),
            last: 0,
        }
    }

    /// Makes room for about so many bytes of pages. Where so much can't be had at once, they may still grow into less.
    pub fn reserve(&mut self, bytes: usize)
        ensures { self.new ≡ self.old }
    {
        let _ = self.pages.reserve(bytes);
    }

    /// The leaf under way is a page.
    fn finish_leaf(&mut self) -> Result<(), NoMemory>
        ensures ok { OnOk result (self.new ≡ record self.old { laid = finished self.old.base self.old.laid }) }
    {
        let place = next_place(self.base, &self.pages)?;
        self.cells.push_leaf(&mut self.pages)?;
        self.leaves.push(Child {
            place,
            last: self.last,
        })?;
        self.cells.clear();
        Ok(())
    }

    /// Finishes the leaf under way, where a cell of so many bytes doesn't fit into it.
    #[inline(always)]
    fn make_room(&mut self, size: usize) -> Result<(), NoMemory>
        requires within { size ≤ 4086 }
        ensures ok { OnOk result (self.new ≡ record self.old { laid = roomy self.old.base self.old.laid size }) }
        ensures room { OnOk result (8 + 2 * (length self.new.laid.cells + 1) + length (joined self.new.laid.cells) + size ≤ 4096) }
    {
        if !self.cells.has_room(size) {
            self.finish_leaf()?;
        }
        Ok(())
    }

    /// Appends a row whose record stays whole.
    #[inline(always)]
    fn push_short(&mut self, rowid: u64, row: &[u8]) -> Result<(), NoMemory>
        requires short { length row.now ≤ 4061 }
        ensures ok { OnOk result (self.new ≡ record self.old { laid = with_short self.old.base self.old.laid rowid row.now }) }
    {
        self.make_room(cell_len(rowid, row))?;
        self.cells.push_row(rowid, row)?;
        self.last = rowid;
        Ok(())
    }

    /// Appends a row whose record goes on in pages behind those so far.
    fn push_long(&mut self, rowid: u64, row: &[u8]) -> Result<(), NoMemory>
        requires long { 4061 < length row.now }
        ensures ok { OnOk result (self.new ≡ record self.old { laid = with_long self.old.base self.old.laid rowid row.now }) }
    {
        self.make_room(long_cell_len(rowid, row))?;
        let place = next_place(self.base, &self.pages)?;
        self.cells.push_long(rowid, row, place)?;
        self.last = rowid;
        let (_, behind) = row.split_at(local_len(row.len()));
        push_chain(&mut self.pages, place, behind)
    }

    /// Ends a block, and so its leaf, behind a rowid that 8,192 divides.
    #[inline(always)]
    fn end_block(&mut self, rowid: u64) -> Result<(), NoMemory>
        ensures ok { OnOk result (self.new ≡ record self.old { laid = if rowid % 8192 == 0 then ended self.old.base self.old.laid else self.old.laid }) }
    {
        if rowid % BLOCK == 0 {
            self.end()?;
        }
        Ok(())
    }

    /// Appends a row whose record is made of few types and some values, and stays whole.
    #[inline(always)]
    fn push_short_values(&mut self, rowid: u64, types: &Draft, body: &Draft) -> Result<(), NoMemory>
        requires short { IsShortRecord types.now.text body.now.text }
        ensures ok { OnOk result (self.new ≡ record self.old { laid = with_short self.old.base self.old.laid rowid (record_of types.now.text body.now.text) }) }
    {
        let size = values_cell_len(rowid, types, body);
        self.make_room(size)?;
        self.cells.push_values(size, rowid, types, body)?;
        self.last = rowid;
        Ok(())
    }

    /// Appends a row by the few types and the values of its record, which stays whole.
    #[inline(always)]
    pub fn push_values(&mut self, rowid: u64, types: &Draft, body: &Draft) -> Result<(), NoMemory>
        requires short { IsShortRecord types.now.text body.now.text }
        ensures ok { OnOk result (self.new ≡ record self.old { laid = with_rows self.old.base self.old.laid rowid (record_of types.now.text body.now.text ∷ []) }) }
    {
        self.push_short_values(rowid, types, body)?;
        self.end_block(rowid)
    }

    /// Appends a row by its record. A rowid that 8,192 divides ends a block, and so its leaf. `NoMemory` also where the number of
    /// a page doesn't fit 32 bits.
    pub fn push(&mut self, rowid: u64, row: &[u8]) -> Result<(), NoMemory>
        ensures ok { OnOk result (self.new ≡ record self.old { laid = with_rows self.old.base self.old.laid rowid (row.now ∷ []) }) }
    {
        if row.len() <= MOST_LOCAL {
            self.push_short(rowid, row)?;
        } else {
            self.push_long(rowid, row)?;
        }
        self.end_block(rowid)
    }

    /// Ends the leaf under way, where it has a row.
    pub fn end(&mut self) -> Result<(), NoMemory>
        ensures ok { OnOk result (self.new ≡ record self.old { laid = ended self.old.base self.old.laid }) }
    {
        if self.cells.is_empty() {
            return Ok(());
        }
        self.finish_leaf()
    }

    /// The pages and the leaves among them, once the leaf under way has ended.
    pub(crate) fn close(self) -> Result<ClosedLeaves, NoMemory>
        ensures { IfOk result (λ pages. pages ≡ closed self) }
    {
        let mut leaves = self;
        leaves.end()?;
        Ok(ClosedLeaves {
            base: leaves.base,
            pages: leaves.pages,
            leaves: leaves.leaves,
        })
    }

    /// The place of the next page, once the leaf under way has ended.
    pub fn next_place(&self) -> Result<u64, NoMemory>
        ensures { IfOk result (λ place. place ≡ next_place self.now.base (closed self.now).pages) }
    {
        self.cells.fit();
        let place = next_place(self.base, &self.pages)?;
        if self.cells.is_empty() {
            return Ok(place);
        }
        if place == u64::MAX {
            return Err(NoMemory);
        }
        Ok(place + 1)
    }

    /// Whether the pages, once the leaf under way has ended, hold behind so many others: they were written there, or no record
    /// goes on in another page.
    pub fn holds_at(&self, place: u64) -> bool
        ensures { result ≡ holds_at place (closed self.now) }
    {
        self.cells.fit();
        (self.base == place) | are_leaves(self.pages.len(), self.leaves.len())
    }
}
