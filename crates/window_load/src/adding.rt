//! The next range of a window, joined to those before it.
ghost use Rattle.std.specs.Prelude.{◌≡◌, ◌+◌, ◌<◌, ◌^◌, ◌⊎◌, true, false, length, is_some, IfOk};
ghost use Rattle.quote_automaton.specs.Rows.{first_row_start};
ghost use Rattle.range_guess.specs.Span.{IsSpanOf, opening_in};
ghost use Rattle.range_scan.specs.Ranges.{AddsSpan};
ghost use Rattle.window_load.specs.Ranges.{begins_behind};

use crate::groups::is_wide;
use crate::window::InputWindow;
use byte_classes::Dialect;
use csv_source::{Gate, NoMemory};
use quote_automaton::{State, first_row_start};
use range_scan::{CALLER, Joined, RangeScanner, Span, View};

/// Whether a row begins in the window behind a range that ends in this state: then the rows of the range end before it.
fn has_row_behind(dialect: &Dialect, window: &InputWindow, span: &Span, end: State) -> bool
    requires { IsSpanOf span.now window.now.kept }
    ensures { result ≡ is_some (first_row_start dialect.now end window.now.kept span.now.to (length window.now.kept)) }
{
    let bytes = window.bytes();
    first_row_start(dialect, end, bytes, span.to, bytes.len()).is_some()
}

/// Scans the next range of a window, first in its guess, and joins it in the state in which those before it end. Where it
/// isn't sure that its rows end in the window it may join nothing, and answers false.
pub fn add_range<G: Gate>(
    scanner: &RangeScanner<'_, G>,
    joined: &mut Joined,
    window: &InputWindow,
    span: &Span,
    sure: bool,
) -> Result<bool, NoMemory>
    requires within { IsSpanOf span.now window.now.kept }
    requires room { window.now.base + length window.now.kept < 2 ^ 62 }
    requires types { joined.old.table.types ≡ scanner.now.context.now.schema.types }
    requires keep { joined.old.book.keep ≡ scanner.now.context.now.keep }
    ensures ok { IfOk result (λ added. added ≡ true → AddsSpan scanner.now.context.now window.now.kept window.now.base span.now
        (opening_in scanner.now.context.now.dialect window.now.kept span.now joined.old.end) joined.old joined.new) }
    ensures value { IfOk result (λ added. added ≡ true → (sure ≡ true)
        ⊎ (begins_behind scanner.now.context.now.dialect window.now.kept span.now joined.old.end ≡ true)) }
    ensures same { IfOk result (λ added. added ≡ false → (sure ≡ false) × (joined.new ≡ joined.old)) }
{
    let view = View {
        bytes: window.bytes(),
        base: window.base(),
    };
    let state = joined.end;
    let first = scanner.opening(&view, span, state);
    if sure && is_wide(scanner.context) {
        joined.scan_next(scanner, &view, span, first)?;
        return Ok(true);
    }
    let kept = scanner.scan(CALLER, &view, span, first)?;
    let part = scanner.part_in(&view, span, state, Some(kept))?;
    if !sure && !has_row_behind(&scanner.context.dialect, window, span, part.end()) {
        return Ok(false);
    }
    joined.add_range(part, first, (span.to - span.from) as u64)?;
    Ok(true)
}
