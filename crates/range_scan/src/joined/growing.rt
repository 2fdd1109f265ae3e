//! The next range is scanned and joined at once.
ghost use Rattle.std.specs.Prelude.{◌≡◌, ◌+◌, cond, OnOk};
ghost use Rattle.range_guess.specs.Span.{IsSpanOf};
ghost use Rattle.range_scan.specs.Ranges.{AddsSpan};

use crate::appending::{append_book, sum_of};
use crate::joined::Joined;
use crate::scanner::{CALLER, RangeScanner};
use crate::view::View;
use column_store::Table;
use csv_source::{Gate, NoMemory};
use quote_automaton::State;
use range_guess::{Span, is_again};
use std::mem;

impl Joined {
    /// Counts a range, of so many bytes, as scanned again where it was.
    fn count_again(&mut self, again: bool, bytes: u64) -> Result<(), NoMemory>
        ensures ok { OnOk result (self.new ≡ record self.old {
          rescans = self.old.rescans + cond again 1 0;
          rescanned = self.old.rescanned + cond again bytes 0;
        }) }
    {
        if again {
            self.rescans = sum_of(self.rescans, 1)?;
            self.rescanned = sum_of(self.rescanned, bytes)?;
        }
        Ok(())
    }

    /// Scans the next range in the state in which those before it end, and appends its rows, about so many, to the last
    /// chunk. Where it counts as scanned first in another state, it is scanned so too.
    fn grow<G: Gate>(
        &mut self,
        scanner: &RangeScanner<'_, G>,
        view: &View<'_>,
        span: &Span,
        first: State,
        about: usize,
    ) -> Result<(), NoMemory>
        requires within { IsSpanOf span.now view.now.bytes.now }
        requires types { self.old.table.types ≡ scanner.now.context.now.schema.types }
        requires keep { self.old.book.keep ≡ scanner.now.context.now.keep }
        ensures ok { OnOk result (AddsSpan scanner.now.context.now view.now.bytes.now view.now.base span.now first self.old self.new) }
    {
        let opened = self.end;
        let again = is_again(first, opened);
        if again {
            scanner.scan(CALLER, view, span, first)?;
        }
        let table = mem::replace(&mut self.table, Table::none(scanner.alloc));
        let (front, chunk) = table.open();
        let grown = scanner.scan_behind(view, span, opened, chunk, about)?;
        self.table = front.close(grown.chunk)?;
        self.end = grown.end;
        append_book(&mut self.book, grown.book, self.line_ends)?;
        self.line_ends = sum_of(self.line_ends, grown.line_ends)?;
        self.count_again(again, (span.to - span.from) as u64)
    }

    /// Scans the next range, whose rows end in the bytes of the view, and joins it in the state in which those before it end. It
    /// counts as scanned again where it was scanned in another state first. Few rows are appended to few others as they are
    /// scanned: no lists are made for them, and none is copied. After want of memory the join is of no use.
    pub fn scan_next<G: Gate>(
        &mut self,
        scanner: &RangeScanner<'_, G>,
        view: &View<'_>,
        span: &Span,
        first: State,
    ) -> Result<(), NoMemory>
        requires within { IsSpanOf span.now view.now.bytes.now }
        requires types { self.old.table.types ≡ scanner.now.context.now.schema.types }
        requires keep { self.old.book.keep ≡ scanner.now.context.now.keep }
        ensures ok { OnOk result (AddsSpan scanner.now.context.now view.now.bytes.now view.now.base span.now first self.old self.new) }
    {
        let opened = self.end;
        let about = scanner.rows_about(view, span, opened);
        if self.table.has_few_with(about) {
            return self.grow(scanner, view, span, first, about);
        }
        let kept = scanner.scan(CALLER, view, span, first)?;
        let part = scanner.part_in(view, span, opened, Some(kept))?;
        self.add_range(part, first, (span.to - span.from) as u64)
    }
}
