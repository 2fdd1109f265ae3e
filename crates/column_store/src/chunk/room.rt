// Room for the text of a row that is to be written.
ghost use Rattle.std.specs.Prelude.{◌<◌, length};

use crate::chunk::Chunk;
use value_types::{Cell, Value};

/// From so many columns on the cells of a row to come are looked at before the next rows are written. Each column lies in
/// memory of its own, and what a number's digits are decides where the code goes on: so what isn't in the caches is waited
/// for side by side, and not cell by cell. Fewer columns are fetched ahead by the processor.
const MANY: usize = 16;

/// So many numbers of eight bytes stand in a line of the cache.
const LINE: usize = 8;

/// About how many bytes the text of a cell takes.
#[inline(always)]
fn cell_room(cell: Cell<'_>) -> usize {
    match cell {
        Cell::Null => 1,
        Cell::Value(Value::Int(number)) => {
            if number.unsigned_abs() < 10_000_000 {
                9
            } else {
                21
            }
        }
        Cell::Value(_) => 27,
        Cell::Text(text) => text.len(),
    }
}

impl Chunk {
    /// About how many bytes the text of a row takes.
    #[inline(always)]
    fn row_room(&self, row: usize) -> usize
        requires { row < length self.now.rows }
    {
        let mut room: usize = 0;
        for column in 0..self.columns() {
            room = room.saturating_add(cell_room(self.cell_at(column, row)));
        }
        room
    }

    /// About how many bytes the text of a row to come takes, once for as many rows as have numbers in one line of the cache, and
    /// else none. To ask it fetches the lines that all of them reach into, before the first is written.
    #[inline(always)]
    pub fn coming_room(&self, row: usize) -> usize
        requires { row < length self.now.rows }
    {
        if self.columns() >= MANY && row % LINE == 0 {
            let last = row.saturating_add(LINE - 1).min(self.rows() - 1);
            return self.row_room(last);
        }
        0
    }
}
