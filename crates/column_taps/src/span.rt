// A tap of the least and the greatest numbers.
ghost use Rattle.std.specs.Prelude.{◌≡◌, ◌++◌, take, OnOk, OnErr};
ghost use Rattle.std.specs.List.{fold};
ghost use Rattle.value_types.specs.Datum.{datum_of};
ghost use Rattle.value_types.specs.Extent.{extent_with};
ghost use Rattle.value_types.specs.Views.{view_cells, HasRows};
ghost use Rattle.column_taps.specs.declared.kind.TapKind.TheVariants.{Span};
ghost use Rattle.column_taps.specs.Seen.{nothing_seen};
ghost use Rattle.column_taps.specs.SeenLines.{extent_line};

use crate::columns::{Known, add_columns, add_row, write_columns};
use crate::lines::push_line;
use crate::{RowTap, TapKind, Tapped};
use csv_source::NoMemory;
use itoa::Buffer;
use std::alloc::Global;
use value_types::{Cell, Cells, ColumnView, Extent, Value, taking_in, widened};

impl Known for Extent {
    ghost with = { extent_with };

    ghost line = { extent_line };

    fn with(extent: Option<Extent>, cell: Cell<'_>) -> Option<Extent>
        ensures { result ≡ extent_with extent (datum_of cell.entry) }
    {
        match cell {
            Cell::Value(Value::Int(number)) => Some(taking_in(extent, number)),
            _ => extent,
        }
    }

    fn with_all(extent: Option<Extent>, rows: usize, column: &ColumnView<'_>) -> Option<Extent>
        requires { HasRows rows column.now }
        ensures { result ≡ fold extent_with extent (take rows (view_cells column.now)) }
    {
        match *column {
            ColumnView::Bigint(column) => widened(extent, column.extent(rows)),
            _ => extent,
        }
    }

    fn push_line(column: usize, extent: Option<Extent>, into: &mut Vec<u8>) -> Result<(), NoMemory>
        ensures ok { OnOk result (into.new.items ≡ into.old.items ++ extent_line column extent) }
        ensures err { OnErr result (into.new.items ≡ into.old.items) }
    {
        let Some(extent) = extent else {
            return Ok(());
        };
        let (mut place, mut least, mut greatest) = (Buffer::new(), Buffer::new(), Buffer::new());
        push_line(
            &[
                b"span",
                place.format(column).as_bytes(),
                least.format(extent.least).as_bytes(),
                greatest.format(extent.greatest).as_bytes(),
            ],
            into,
        )
    }
}

/// Keeps the least and the greatest BIGINT of each column that had one. Its lines are
/// `tap|span|COLUMN|LEAST|GREATEST`, with columns counted from 0.
#[derive(Drop)]
pub struct SpanTap {
    extents: Vec<Option<Extent>>,
}

impl SpanTap {
    /// Has seen nothing.
    pub fn new(alloc: Global) -> SpanTap
        ensures { ⟦<SpanTap as RowTap>⟧.seen result ≡ nothing_seen Span }
    {
        SpanTap {
            extents: Vec::new(alloc),
        }
    }
}

impl RowTap for SpanTap {
    ghost use Rattle.column_taps.specs.Seen.{spanned};

    ghost seen = { λ tap. spanned tap.extents.items };

    fn kind(&self) -> TapKind {
        TapKind::Span
    }

    fn take(&mut self, row: &Cells) -> Result<Tapped, NoMemory> {
        add_row(&mut self.extents, row)?;
        Ok(Tapped::Goes)
    }

    fn take_columns(
        &mut self,
        rows: usize,
        columns: &[ColumnView<'_>],
    ) -> Result<Option<usize>, NoMemory> {
        if rows == 0 {
            return Ok(Some(0));
        }
        add_columns(&mut self.extents, rows, columns)?;
        Ok(Some(rows))
    }

    fn write_lines(&self, into: &mut Vec<u8>) -> Result<(), NoMemory> {
        write_columns(&self.extents, into)
    }
}
