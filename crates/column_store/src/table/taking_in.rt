// Tables that are taken in, with as few chunks as their rows need.
ghost use Rattle.std.specs.Prelude.{◌≡◌, ◌-◌, ◌++◌, [], length, OnErr, OnOk};

use crate::chunk::{Chunk, FEW_ROWS};
use crate::table::Table;
use csv_source::NoMemory;

/// Whether rows and those behind them are few together.
fn are_few(rows: usize, more: usize) -> bool {
    rows <= FEW_ROWS && more <= FEW_ROWS - rows
}

impl Table {
    /// Whether the last chunk has few rows, also with so many more.
    pub fn has_few_with(&self, more: usize) -> bool {
        are_few(self.last.rows(), more)
    }

    /// Appends copies of the rows of a chunk to the last one.
    fn append_chunk(&mut self, chunk: &Chunk) -> Result<(), NoMemory>
        requires types { self.old.types ≡ chunk.now.types }
        requires whole { chunk.now.unfinished ≡ [] }
        ensures ok { OnOk result (self.new ≡ record self.old { rows = self.old.rows ++ chunk.now.rows; spare = self.old.spare - length chunk.now.rows }) }
        ensures err { OnErr result (self.new ≡ self.old) }
    {
        if chunk.rows() > usize::MAX - self.rows() {
            return Err(NoMemory);
        }
        self.last.append(chunk)
    }

    /// Appends the rows of a table of the same types. Each chunk has lists for each column, and these take memory. So a
    /// table without rows brings no chunk, few rows are copied behind few others, and else chunks are kept as they are.
    pub fn take_in(&mut self, other: Table) -> Result<(), NoMemory>
        requires { self.old.types ≡ other.types }
        ensures types { self.new.types ≡ self.old.types }
        ensures ok { OnOk result (self.new.rows ≡ self.old.rows ++ other.rows) }
        ensures err { OnErr result (self.new ≡ self.old) }
    {
        if other.rows() == 0 {
            return Ok(());
        }
        if self.rows() == 0 {
            *self = other;
            return Ok(());
        }
        if other.earlier.is_empty() && are_few(self.last.rows(), other.last.rows()) {
            return self.append_chunk(&other.last);
        }
        self.join(other)
    }
}
