//! The join of the parts of all ranges, each in its true state.
ghost use Rattle.std.specs.Prelude.{◌≡◌, IfSome, OnOk};
ghost use Rattle.range_guess.specs.Span.{IsSpanOf, opening_in};
ghost use Rattle.range_scan.specs.Ranges.{AddsSpan};
ghost use Rattle.range_scan.specs.Scanned.{IsScanOf};
ghost use Rattle.pipe_load.specs.Scanning.{HasParts};
ghost use Rattle.pipe_load.specs.Joining.{AddsRanges};
ghost use Rattle.pipe_load.specs.Layout.{stretch_len};

use crate::scanner::{Kept, Scanner};
use csv_source::{Buffer, Gate, NoMemory};
use range_scan::{Joined, Part, RangeScanner, Span, View};

/// Joins the next range of a window, with the part that was kept of it if there is one.
fn add_range<G: Gate>(
    scanner: &RangeScanner<'_, G>,
    joined: &mut Joined,
    view: &View<'_>,
    span: &Span,
    kept: Option<Part>,
) -> Result<(), NoMemory>
    requires within { IsSpanOf span.now view.now.bytes.now }
    requires kept { IfSome kept (IsScanOf scanner.now.context.now view.now.bytes.now view.now.base span.now) }
    requires types { joined.old.table.types ≡ scanner.now.context.now.schema.types }
    requires keep { joined.old.book.keep ≡ scanner.now.context.now.keep }
    ensures { OnOk result (AddsSpan scanner.now.context.now view.now.bytes.now view.now.base span.now
        (opening_in scanner.now.context.now.dialect view.now.bytes.now span.now joined.old.end) joined.old joined.new) }
{
    let state = joined.end;
    let first = scanner.opening(view, span, state);
    let part = scanner.part_in(view, span, state, kept)?;
    joined.add_range(part, first, (span.to - span.from) as u64)
}

impl<'a, G: Gate> Scanner<'a, G> {
    /// Joins the next window, and gives its memory back.
    pub fn add_window(&self, joined: &mut Joined, kept: Kept) -> Result<Buffer, NoMemory>
        requires kept { HasParts self.now.ranges.context.now self.now.layout kept }
        requires types { joined.old.table.types ≡ self.now.ranges.context.now.schema.types }
        requires keep { joined.old.book.keep ≡ self.now.ranges.context.now.keep }
        ensures { OnOk result (AddsRanges self.now.ranges.context.now self.now.layout kept.window (stretch_len self.now.layout kept.window) joined.old joined.new) }
    {
        let Kept { window, mut parts } = kept;
        let (base, stretch) = self.layout.stretch_of(&window)?;
        let view = View {
            bytes: window.bytes(),
            base,
        };
        for range in 0..stretch.count() {
            let span = stretch.span_of(range);
            let part = parts.pop_front();
            add_range(&self.ranges, joined, &view, &span, part)?;
        }
        Ok(window.into_bytes())
    }
}
