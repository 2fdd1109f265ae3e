//! A chunk to which the rows of a range are appended.
ghost use Rattle.std.specs.Prelude.{◌≡◌, ◌≤◌, ◌<◌, [], length, IfOk};
ghost use Rattle.range_guess.specs.Span.{IsSpanOf};
ghost use Rattle.range_scan.specs.Grown.{IsGrownBy};
ghost use Rattle.range_scan.specs.Scanned.{scanned, HasColumns};

use crate::context::Context;
use crate::gathering::Gathering;
use crate::scanner::{CALLER, RangeScanner};
use crate::scanning::{FEW_ROWS, HARDLY_ANY, gather};
use crate::view::View;
use byte_classes::{byte_before, count_line_ends, is_line_end};
use column_store::Chunk;
use csv_source::{Gate, NoMemory};
use quote_automaton::State;
use range_guess::Span;
use reject_book::Book;

/// What a chunk came to, to which the rows of a range were appended, with what else the range is.
#[derive(Drop)]
pub struct Grown {
    /// The rows that it had, and the good rows that begin in the range.
    pub chunk: Chunk,
    /// The state at the range's end.
    pub end: State,
    /// The rejects of the faulty rows that begin in it, whose lines are counted from its start.
    pub book: Book,
    /// Its line ends.
    pub line_ends: u64,
}

/// About how many rows begin in the bytes between two places, which are opened in a state.
fn rows_about(context: &Context, bytes: &[u8], from: usize, to: usize, opened: State) -> usize
    requires within { (from ≤ to) × (to ≤ length bytes.now) }
    requires fits { HasColumns context.now.schema }
{
    let line_ends = count_line_ends(&bytes[from..to], byte_before(bytes, from)) as usize;
    let first = opened == State::RowStart;
    let last = to > from && is_line_end(bytes[to - 1]);
    let rows = line_ends
        .saturating_add(first as usize)
        .saturating_sub(last as usize);
    rows.min((to - from) / context.schema.types.len())
}

impl<'a, G: Gate> RangeScanner<'a, G> {
    /// About how many rows begin in a range that is opened in a state.
    pub fn rows_about(&self, view: &View<'_>, span: &Span, opened: State) -> usize
        requires { IsSpanOf span.now view.now.bytes.now }
    {
        rows_about(self.context, view.bytes, span.from, span.to, opened)
    }

    /// For how many rows room is taken behind those of a chunk, where about so many begin in a range: for as many as are held
    /// from its start on, and for as many as there are, so that room seldom grows.
    fn rows_behind(
        &self,
        chunk: &Chunk,
        bytes: &[u8],
        from: usize,
        opened: State,
        about: usize,
    ) -> usize
        requires { from ≤ length bytes.now }
    {
        if about <= chunk.spare() {
            return 0;
        }
        let held = rows_about(self.context, bytes, from, bytes.len(), opened);
        let rows = held.min(FEW_ROWS).max(about).max(chunk.rows());
        if rows <= HARDLY_ANY { 0 } else { rows }
    }

    /// Scans a range from a state, where about so many rows begin in it, and appends them to a chunk.
    pub fn scan_behind(
        &self,
        view: &View<'_>,
        span: &Span,
        opened: State,
        chunk: Chunk,
        about: usize,
    ) -> Result<Grown, NoMemory>
        requires within { IsSpanOf span.now view.now.bytes.now }
        requires types { chunk.types ≡ self.now.context.now.schema.types }
        requires whole { chunk.unfinished ≡ [] }
        ensures { IfOk result (IsGrownBy (scanned self.now.context.now view.now.bytes.now view.now.base span.now opened) chunk) }
    {
        self.gate.scanning(CALLER, span.number, opened as u8);
        let (bytes, base) = (view.bytes, view.base);
        let line_ends = count_line_ends(&bytes[span.from..span.to], byte_before(bytes, span.from));
        let rows = self.rows_behind(&chunk, bytes, span.from, opened, about);
        let gathering = Gathering::new(self.alloc, self.context, span.from, chunk, rows)?;
        let (gathering, end) = gather(gathering, self.context, bytes, base, span, opened)?;
        let Gathering { chunk, book, .. } = gathering;
        Ok(Grown {
            chunk,
            end,
            book,
            line_ends,
        })
    }
}
