// A table whose last chunk grows elsewhere.
ghost use Rattle.std.specs.Prelude.{◌≡◌, ◌++◌, [], All, IfOk};
ghost use Rattle.column_store.specs.Stacked.{rows_in};

use crate::chunk::Chunk;
use crate::stacking::rows_before;
use crate::table::Table;
use csv_source::NoMemory;
use std::alloc::Global;
use std::marker::Model;

/// The chunks of a table before its last one, which grows elsewhere.
#[derive(Drop)]
pub struct Front {
    chunks: Vec<Chunk>,
    ends: Vec<usize>,
}

impl Model for Front {
    ghost use Rattle.std.specs.Prelude.{◌≡◌, [], List, All};
    ghost use Rattle.column_store.specs.ChunkView.{ChunkView};
    ghost use Rattle.column_store.specs.Stacked.{ends_from};

    ghost Value = { List ChunkView };

    ghost view = { λ f. f.chunks.items };

    ghost invariant = { λ f. (All (λ chunk. chunk.unfinished ≡ []) f.chunks.items) × (f.ends.items ≡ ends_from 0 f.chunks.items) };
}

impl Front {
    /// The table of these chunks and a last one. It is refused only where there are as many rows as can be counted.
    pub fn close(self, last: Chunk) -> Result<Table, NoMemory>
        requires types { All (λ chunk. chunk.types ≡ last.types) self }
        requires whole { last.unfinished ≡ [] }
        ensures { IfOk result (λ table. table ≡ record { types = last.types; rows = rows_in self ++ last.rows; spare = last.spare }) }
    {
        let before = rows_before(&self.ends, self.ends.len());
        if last.rows() > usize::MAX - before || last.spare() > usize::MAX - before - last.rows() {
            return Err(NoMemory);
        }
        let Front { chunks, ends } = self;
        Ok(Table {
            earlier: chunks,
            ends,
            last,
        })
    }
}

impl Table {
    /// A table of no columns and no rows, which takes no memory.
    pub fn none(alloc: Global) -> Table
        ensures { result ≡ record { types = []; rows = []; spare = 0 } }
    {
        Table {
            earlier: Vec::new(alloc),
            ends: Vec::new(alloc),
            last: Chunk::none(alloc),
        }
    }

    /// The chunks before the last one, and the last one, which may grow.
    pub fn open(self) -> (Front, Chunk)
        ensures types { All (λ chunk. chunk.types ≡ self.types) result.0 }
        ensures last { (result.1.types ≡ self.types) × (result.1.unfinished ≡ []) }
        ensures rows { self.rows ≡ rows_in result.0 ++ result.1.rows }
    {
        let Table {
            earlier: chunks,
            ends,
            last,
        } = self;
        (Front { chunks, ends }, last)
    }
}
