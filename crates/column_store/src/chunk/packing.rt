// Numbers of a chunk in as few bytes as they need.
ghost use Rattle.std.specs.Prelude.{◌≡◌};

use crate::chunk::Chunk;
use crate::columns;
use std::alloc::Global;

/// In a chunk of no more rows than these, a column's lists take a good part of the memory that its cells do.
pub(crate) const FEW_ROWS: usize = 64;

impl Chunk {
    /// Takes the extent of each BIGINT column, which its view then knows. Where rows aren't few, its numbers are kept in as
    /// few bytes as they need; what finds no memory stays as it is. No row is spare then.
    pub fn pack(&mut self, alloc: Global)
        ensures { self.new ≡ record self.old { spare = 0 } }
    {
        columns::pack(&mut self.columns, alloc, self.rows > FEW_ROWS);
        self.spare = 0;
    }
}
