// A chunk of rows.
ghost use Rattle.std.specs.Prelude.{◌≡◌, ◌≤◌, ◌<◌, ◌+◌, ◌-◌, ◌++◌, ◌∷◌, ◌^◌, [], is_some, length, slice_range, take, IfOk, OnErr, OnOk, Some};
ghost use Rattle.std.specs.Option.{option_to_list};
ghost use Rattle.value_types.specs.Datum.{datum_of};
ghost use Rattle.column_store.specs.NextCell.{spelled_cell};
ghost use Rattle.column_store.specs.RowsOfColumns.{FitsColumn};
ghost use Rattle.column_store.specs.TableView.{cell_of};

mod fronts;
mod packing;
mod room;
mod views;
mod whole_rows;

use crate::column::Column;
use crate::columns;
use csv_source::NoMemory;
pub(crate) use packing::FEW_ROWS;
use std::alloc::Global;
use std::marker::Model;
use value_types::{Cell, Types};

/// Rows in columns of their own. A row is appended cell by cell and then finished, or taken back.
#[derive(Drop)]
pub struct Chunk {
    columns: Vec<Column>,
    rows: usize,
    begun: usize,
    spare: usize,
}

impl Model for Chunk {
    ghost use Rattle.column_store.specs.ChunkView.{ChunkView, chunk_view};

    ghost Value = { ChunkView };

    ghost use Rattle.column_store.specs.IsFilled.{IsFilled};

    ghost view = { λ c. chunk_view c.columns.items c.rows c.begun c.spare };

    ghost invariant = { λ c. IsFilled c.columns.items c.rows c.begun c.spare };
}

impl Chunk {
    /// A chunk of no rows.
    pub fn new(alloc: Global, types: &Types) -> Result<Chunk, NoMemory>
        ensures { IfOk result (λ chunk. chunk ≡ record { types = types.now; rows = []; unfinished = []; spare = 0 }) }
    {
        Ok(Chunk {
            columns: columns::empty_columns(alloc, types)?,
            rows: 0,
            begun: 0,
            spare: 0,
        })
    }

    /// A chunk of no columns and no rows, which takes no memory.
    pub(crate) fn none(alloc: Global) -> Chunk
        ensures { result ≡ record { types = []; rows = []; unfinished = []; spare = 0 } }
    {
        Chunk {
            columns: Vec::new(alloc),
            rows: 0,
            begun: 0,
            spare: 0,
        }
    }

    /// How many rows are finished.
    pub fn rows(&self) -> usize
        ensures { result ≡ length self.now.rows }
    {
        self.rows
    }

    /// How many columns there are.
    pub fn columns(&self) -> usize
        ensures { result ≡ length self.now.types }
    {
        self.columns.len()
    }

    /// How many rows can be appended without memory, the bytes of texts apart.
    pub fn spare(&self) -> usize
        ensures value { result ≡ self.now.spare }
        ensures countable { length self.now.rows + self.now.spare < 2 ^ 64 }
    {
        self.spare
    }

    /// The cell of a column and a finished row, both counted from 0.
    #[inline(always)]
    pub fn cell_at(&self, column: usize, row: usize) -> Cell<'_>
        requires column { column < length self.now.types }
        requires row { row < length self.now.rows }
        ensures { cell_of self.now.rows column row ≡ Some (datum_of result) }
    {
        self.columns[column].get(row)
    }

    /// Appends the next cell of the row under way.
    #[inline(always)]
    pub fn push_cell(&mut self, cell: Cell<'_>) -> Result<(), NoMemory>
        requires { FitsColumn self.old.types (length self.old.unfinished) (datum_of cell) }
        ensures ok { OnOk result (self.new ≡ record self.old { unfinished = self.old.unfinished ++ datum_of cell.entry ∷ [] }) }
        ensures err { OnErr result (self.new ≡ self.old) }
    {
        self.columns[self.begun].push(cell)?;
        self.begun += 1;
        Ok(())
    }

    /// Appends the cell that the text between two places spells as the type of the next column to the row under way,
    /// and answers whether it spells one. Where it spells none, nothing is appended.
    #[inline(always)]
    pub fn push_spelled(&mut self, bytes: &[u8], from: usize, end: usize) -> Result<bool, NoMemory>
        requires next { length self.old.unfinished < length self.old.types }
        requires within { (from ≤ end) × (end ≤ length bytes.now) }
        ensures value { IfOk result (λ spelled. spelled ≡ is_some (spelled_cell self.old (slice_range bytes.now from end))) }
        ensures ok { OnOk result (self.new ≡ record self.old { unfinished = self.old.unfinished ++ option_to_list (spelled_cell self.old (slice_range bytes.now from end)) }) }
        ensures err { OnErr result (self.new ≡ self.old) }
    {
        let roomy = self.spare > 0;
        if self.columns[self.begun].push_spelled(bytes, from, end, roomy)? {
            self.begun += 1;
            return Ok(true);
        }
        Ok(false)
    }

    /// Keeps the first rows alone, and nothing of the row under way. Rows that go are spare again: so one has to be
    /// spare, since then no column is packed.
    pub(crate) fn truncate(&mut self, rows: usize)
        requires { 1 ≤ self.old.spare }
        ensures { self.new ≡ record self.old { rows = take rows self.old.rows; unfinished = []; spare = self.old.spare + (length self.old.rows - rows) } }
    {
        let rows = rows.min(self.rows);
        columns::cut(&mut self.columns, rows);
        self.spare += self.rows - rows;
        self.rows = rows;
        self.begun = 0;
    }

    /// Takes the cells of the row under way back.
    pub fn drop_unfinished_row(&mut self)
        ensures { self.new ≡ record self.old { unfinished = [] } }
    {
        columns::cut_first(&mut self.columns, self.begun, self.rows);
        self.begun = 0;
    }

    /// Makes the row under way the last one.
    fn count_row(&mut self)
        requires all { length self.old.unfinished ≡ length self.old.types }
        requires room { length self.old.rows + 1 < 2 ^ 64 }
        ensures { self.new ≡ record self.old { rows = self.old.rows ++ self.old.unfinished ∷ []; unfinished = []; spare = self.old.spare - 1 } }
    {
        self.rows += 1;
        self.begun = 0;
        self.spare = self.spare.saturating_sub(1);
    }

    /// Finishes the row under way. It is refused only where there are as many rows as can be counted.
    #[inline(always)]
    pub fn finish_row(&mut self) -> Result<(), NoMemory>
        requires { length self.old.unfinished ≡ length self.old.types }
        ensures ok { OnOk result (self.new ≡ record self.old { rows = self.old.rows ++ self.old.unfinished ∷ []; unfinished = []; spare = self.old.spare - 1 }) }
        ensures err { OnErr result (self.new ≡ self.old) }
    {
        if self.rows == usize::MAX {
            return Err(NoMemory);
        }
        self.count_row();
        Ok(())
    }
}
