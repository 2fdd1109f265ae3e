// A walk through the bytes of an array.
ghost use Rattle.std.specs.Prelude.{◌≡◌, ◌≤◌, ◌<◌, [], length, slice_index_or, MatchOption};
ghost use Rattle.value_types.specs.declared.types.ColumnType.TheVariants.{Varchar};
ghost use Rattle.column_store.specs.TableView.{column_of};
ghost use Rattle.npz_writer.specs.Arrays.{array_bytes};
ghost use Rattle.npz_writer.specs.Walks.{Steps, rest};

use crate::part::Part;
use crate::run::Run;
use column_store::{Chunk, Table};
use std::marker::Model;

/// The bytes of an array of a column that are to come: those of a run, and of chunks behind it.
#[derive(Drop)]
pub(crate) struct Walk<'a> {
    run: Run<'a>,
    part: Part,
    column: usize,
    later: &'a [Chunk],
    last: &'a Chunk,
    last_comes: bool,
}

impl<'a> Model for Walk<'a> {
    ghost use Rattle.std.specs.Prelude.{◌++◌};
    ghost use Rattle.npz_writer.specs.Walks.{WalkView};

    ghost Value = { WalkView };

    ghost use Rattle.column_store.specs.TableView.{column_of};
    ghost use Rattle.column_store.specs.ViewTypes.{type_of_view};
    ghost use Rattle.npz_writer.specs.Walks.{IsWalk, chunks_to_come, rows_to_come, run_cells};

    ghost view = { λ w. record {
      ty = type_of_view w.run.view;
      part = w.part;
      pending = w.run.pending.now;
      begin = w.run.begin;
      cells = run_cells w.run ++ column_of (rows_to_come w.later.now w.last_comes w.last.now) w.column;
      chunks = chunks_to_come w.later.now w.last_comes;
    } };

    ghost invariant = { λ w. IsWalk w.part w.run w.column w.later.now w.last.now };
}

impl<'a> Walk<'a> {
    /// A walk through all bytes of an array.
    pub(crate) fn of(table: &'a Table, column: usize, part: Part) -> Walk<'a>
        requires { column < length table.now.types }
        ensures { rest result ≡ array_bytes (slice_index_or table.now.types column Varchar) part (column_of table.now.rows column) }
    {
        let (earlier, last) = table.chunks();
        Walk {
            run: Run::none(last, column),
            part,
            column,
            later: earlier,
            last,
            last_comes: true,
        }
    }

    /// Fills a block with the next bytes, and answers how many came, or that none is left.
    pub(crate) fn next(&mut self, block: &mut [u8]) -> Option<usize>
        requires { 8 ≤ length block.old }
        ensures { MatchOption result (rest self.old ≡ []) (λ count. Steps self.old self.new count block.new) }
    {
        if self.run.has_more() {
            return Some(self.run.fill(self.part, block));
        }
        if let Some((chunk, later)) = self.later.split_first() {
            self.run = Run::of(chunk, self.column, self.run.begin);
            self.later = later;
            return Some(0);
        }
        if self.last_comes {
            self.run = Run::of(self.last, self.column, self.run.begin);
            self.last_comes = false;
            return Some(0);
        }
        None
    }
}
