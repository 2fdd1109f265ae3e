// A table of typed columns.
ghost use Rattle.std.specs.Prelude.{◌≡◌, ◌≤◌, ◌<◌, ◌+◌, ◌-◌, ◌++◌, ◌∷◌, [], length, max, All, IfOk, IsTrue, OnErr, OnOk, Some};
ghost use Rattle.value_types.specs.Datum.{datum_of};
ghost use Rattle.value_types.specs.OfType.{fit_all};
ghost use Rattle.column_store.specs.RowsOfColumns.{HasNoTexts};
ghost use Rattle.column_store.specs.Stacked.{rows_in};
ghost use Rattle.column_store.specs.TableView.{cell_of};

mod opening;
mod taking_in;

use crate::chunk::Chunk;
use crate::stacking::{append_each, append_ends, chunk_of, rows_before};
use csv_source::NoMemory;
pub use opening::Front;
use std::alloc::Global;
use std::marker::Model;
use std::mem;
use value_types::{Cell, Cells, Types};

/// A table: rows in chunks, the last of which grows.
#[derive(Drop)]
pub struct Table {
    earlier: Vec<Chunk>,
    ends: Vec<usize>,
    last: Chunk,
}

impl Model for Table {
    ghost use Rattle.std.specs.Prelude.{◌++◌};
    ghost use Rattle.column_store.specs.TableView.{TableView};

    ghost Value = { TableView };

    ghost use Rattle.column_store.specs.Stacked.{rows_in, IsStacked};

    ghost view = { λ t. record { types = t.last.types; rows = rows_in t.earlier.items ++ t.last.rows; spare = t.last.spare } };

    ghost invariant = { λ t. IsStacked t.earlier.items t.ends.items t.last };
}

impl Table {
    /// A table of no rows.
    pub fn new(alloc: Global, types: &Types) -> Result<Table, NoMemory>
        ensures { IfOk result (λ table. table ≡ record { types = types.now; rows = []; spare = 0 }) }
    {
        Ok(Table {
            earlier: Vec::new(alloc),
            ends: Vec::new(alloc),
            last: Chunk::new(alloc, types)?,
        })
    }

    /// The table of a chunk's rows, without a copy.
    pub fn from_chunk(alloc: Global, chunk: Chunk) -> Table
        requires { chunk.unfinished ≡ [] }
        ensures { result ≡ record { types = chunk.types; rows = chunk.rows; spare = chunk.spare } }
    {
        // Its rows and the spare ones can be counted together.
        let _ = chunk.spare();
        Table {
            earlier: Vec::new(alloc),
            ends: Vec::new(alloc),
            last: chunk,
        }
    }

    /// How many rows there are.
    pub fn rows(&self) -> usize
        ensures { result ≡ length self.now.rows }
    {
        rows_before(&self.ends, self.ends.len()) + self.last.rows()
    }

    /// How many columns there are.
    pub fn columns(&self) -> usize
        ensures { result ≡ length self.now.types }
    {
        self.last.columns()
    }

    /// Appends a row, or nothing where memory is wanting.
    pub fn push_row(&mut self, cells: &Cells) -> Result<(), NoMemory>
        requires { IsTrue (fit_all self.old.types cells.now) }
        ensures ok { OnOk result (self.new ≡ record self.old { rows = self.old.rows ++ cells.now ∷ []; spare = self.old.spare - 1 }) }
        ensures err { OnErr result (self.new ≡ self.old) }
    {
        // No machine holds so many rows.
        if self.rows() == usize::MAX {
            return Err(NoMemory);
        }
        self.last.push_row(cells)
    }

    /// Makes the number of spare rows at least `more`.
    pub fn reserve_rows(&mut self, more: usize) -> Result<(), NoMemory>
        ensures ok { OnOk result (self.new ≡ record self.old { spare = max self.old.spare more }) }
        ensures err { OnErr result (self.new ≡ self.old) }
    {
        if more > usize::MAX - self.rows() {
            return Err(NoMemory);
        }
        self.last.reserve_rows(more)
    }

    /// Appends a row in the place of a spare one.
    pub fn push_reserved(&mut self, cells: &Cells)
        requires fits { IsTrue (fit_all self.old.types cells.now) }
        requires room { 1 ≤ self.old.spare }
        requires typed { HasNoTexts self.old.types }
        ensures { self.new ≡ record self.old { rows = self.old.rows ++ cells.now ∷ []; spare = self.old.spare - 1 } }
    {
        self.last.push_reserved(cells);
    }

    /// Appends copies of the rows of a table of the same types, or nothing where memory is wanting: room that was found
    /// for some of them then stays, for later rows.
    pub fn append(&mut self, other: &Table) -> Result<(), NoMemory>
        requires { self.old.types ≡ other.now.types }
        ensures types { self.new.types ≡ self.old.types }
        ensures ok { OnOk result (self.new.rows ≡ self.old.rows ++ other.now.rows) }
        ensures err { OnErr result (self.new.rows ≡ self.old.rows) }
        ensures err_spare { OnErr result (self.old.spare ≤ self.new.spare) }
    {
        let Some(more) = other.rows().checked_add(1) else {
            return Err(NoMemory);
        };
        // One row more, so that one is spare until all are there.
        self.reserve_rows(more)?;
        let rows = self.last.rows();
        match append_each(&mut self.last, &other.earlier, &other.last) {
            Ok(()) => Ok(()),
            Err(stop) => {
                self.last.truncate(rows);
                Err(stop)
            }
        }
    }

    /// Appends the rows of a table of the same types, whose chunks are kept as they are.
    pub fn join(&mut self, other: Table) -> Result<(), NoMemory>
        requires { self.old.types ≡ other.types }
        ensures types { self.new.types ≡ self.old.types }
        ensures ok { OnOk result ((self.new.rows ≡ self.old.rows ++ other.rows) × (self.new.spare ≡ other.spare)) }
        ensures err { OnErr result (self.new ≡ self.old) }
    {
        let before = self.rows();
        if other.rows() > usize::MAX - before
            || other.last.spare() > usize::MAX - before - other.rows()
        {
            return Err(NoMemory);
        }
        let Table {
            earlier: mut chunks,
            ends,
            last,
        } = other;
        self.earlier.reserve(chunks.len() + 1)?;
        append_ends(&mut self.ends, before, &ends)?;
        let finished = mem::replace(&mut self.last, last);
        self.earlier.push_reserved(finished);
        // There is room for them.
        let _ = self.earlier.append(&mut chunks);
        Ok(())
    }

    /// The chunks before the last one, and the last one: a walk over their rows needs no search for each cell.
    pub fn chunks(&self) -> (&[Chunk], &Chunk)
        ensures types { All (λ chunk. chunk.types ≡ self.now.types) result.0.now }
        ensures last_types { result.1.now.types ≡ self.now.types }
        ensures rows { self.now.rows ≡ rows_in result.0.now ++ result.1.now.rows }
    {
        (&self.earlier, &self.last)
    }

    /// The cell of a column and a row, both counted from 0.
    pub fn cell_at(&self, column: usize, row: usize) -> Cell<'_>
        requires column { column < length self.now.types }
        requires row { row < length self.now.rows }
        ensures { cell_of self.now.rows column row ≡ Some (datum_of result) }
    {
        let number = chunk_of(&self.ends, row);
        let place = row - rows_before(&self.ends, number);
        if number < self.earlier.len() {
            let chunk = &self.earlier[number];
            chunk.cell_at(column, place)
        } else {
            self.last.cell_at(column, place)
        }
    }
}
