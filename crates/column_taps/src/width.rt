// A tap of the longest texts.
ghost use Rattle.std.specs.Prelude.{◌≡◌, ◌++◌, take, OnOk, OnErr};
ghost use Rattle.std.specs.List.{fold};
ghost use Rattle.value_types.specs.Datum.{datum_of};
ghost use Rattle.value_types.specs.Views.{view_cells, HasRows};
ghost use Rattle.column_taps.specs.declared.kind.TapKind.TheVariants as kinds;
ghost use Rattle.column_taps.specs.Seen.{nothing_seen, width_with};
ghost use Rattle.column_taps.specs.SeenLines.{width_line};

use crate::columns::{Known, add_columns, add_row, write_columns};
use crate::lines::push_line;
use crate::{RowTap, TapKind, Tapped};
use csv_source::NoMemory;
use itoa::Buffer;
use std::alloc::Global;
use texts::with_texts;
use value_types::{Cell, Cells, ColumnView};

/// The length of the longest text so far.
#[derive(Clone, Copy)]
pub(crate) struct Width {
    bytes: usize,
}

mod texts;

impl Known for Width {
    ghost with = { width_with };

    ghost line = { width_line };

    fn with(width: Option<Width>, cell: Cell<'_>) -> Option<Width>
        ensures { result ≡ width_with width (datum_of cell.entry) }
    {
        match (cell, width) {
            (Cell::Text(text), None) => Some(Width { bytes: text.len() }),
            (Cell::Text(text), Some(width)) => Some(Width {
                bytes: width.bytes.max(text.len()),
            }),
            _ => width,
        }
    }

    fn with_all(width: Option<Width>, rows: usize, column: &ColumnView<'_>) -> Option<Width>
        requires { HasRows rows column.now }
        ensures { result ≡ fold width_with width (take rows (view_cells column.now)) }
    {
        match *column {
            ColumnView::Varchar(nulls, texts) => with_texts(width, rows, nulls, texts),
            _ => width,
        }
    }

    fn push_line(column: usize, width: Option<Width>, into: &mut Vec<u8>) -> Result<(), NoMemory>
        ensures ok { OnOk result (into.new.items ≡ into.old.items ++ width_line column width) }
        ensures err { OnErr result (into.new.items ≡ into.old.items) }
    {
        let Some(width) = width else {
            return Ok(());
        };
        let (mut place, mut bytes) = (Buffer::new(), Buffer::new());
        push_line(
            &[
                b"width",
                place.format(column).as_bytes(),
                bytes.format(width.bytes).as_bytes(),
            ],
            into,
        )
    }
}

/// Keeps the length in bytes of the longest text of each column that had one, be it empty. Its lines are
/// `tap|width|COLUMN|BYTES`, with columns counted from 0.
#[derive(Drop)]
pub struct WidthTap {
    widths: Vec<Option<Width>>,
}

impl WidthTap {
    /// Has seen nothing.
    pub fn new(alloc: Global) -> WidthTap
        ensures { ⟦<WidthTap as RowTap>⟧.seen result ≡ nothing_seen kinds.Width }
    {
        WidthTap {
            widths: Vec::new(alloc),
        }
    }
}

impl RowTap for WidthTap {
    ghost use Rattle.column_taps.specs.Seen.{measured};

    ghost seen = { λ tap. measured tap.widths.items };

    fn kind(&self) -> TapKind {
        TapKind::Width
    }

    fn take(&mut self, row: &Cells) -> Result<Tapped, NoMemory> {
        add_row(&mut self.widths, row)?;
        Ok(Tapped::Goes)
    }

    fn take_columns(
        &mut self,
        rows: usize,
        columns: &[ColumnView<'_>],
    ) -> Result<Option<usize>, NoMemory> {
        if rows == 0 {
            return Ok(Some(0));
        }
        add_columns(&mut self.widths, rows, columns)?;
        Ok(Some(rows))
    }

    fn write_lines(&self, into: &mut Vec<u8>) -> Result<(), NoMemory> {
        write_columns(&self.widths, into)
    }
}
