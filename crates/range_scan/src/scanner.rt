//! The scans of ranges under one context.
ghost use Rattle.std.specs.Prelude.{◌≡◌, IfOk, IfSome};
ghost use Rattle.range_guess.specs.Span.{IsSpanOf};
ghost use Rattle.range_scan.specs.Scanned.{scanned, IsScanOf, HasColumns};

use crate::context::Context;
use crate::part::Part;
use crate::scanning::scan;
use crate::view::View;
use csv_source::{Gate, NoMemory};
use quote_automaton::State;
use range_guess::{Span, opening_in};
use std::alloc::Global;

/// The number under which a gate is told of the scans of the caller's own thread.
pub const CALLER: u32 = 0;

/// Scans ranges under one context, and tells the gate of each scan.
#[derive(Drop)]
pub struct RangeScanner<'a, G: Gate> {
    pub alloc: Global,
    pub context: &'a Context,
    pub gate: &'a G,
    ghost fits: { HasColumns context.now.schema },
}

impl<'a, G: Gate> RangeScanner<'a, G> {
    ghost use Rattle.range_guess.specs.Span.{opening_in};

    /// The state in which a range counts as scanned first, where those before it end in a state.
    pub fn opening(&self, view: &View<'_>, span: &Span, end: State) -> State
        requires { IsSpanOf span.now view.now.bytes.now }
        ensures { result ≡ opening_in self.now.context.now.dialect view.now.bytes.now span.now end }
    {
        opening_in(&self.context.dialect, view.bytes, span, end)
    }

    /// Scans a range from a state.
    pub fn scan(
        &self,
        worker: u32,
        view: &View<'_>,
        span: &Span,
        opened: State,
    ) -> Result<Part, NoMemory>
        requires { IsSpanOf span.now view.now.bytes.now }
        ensures { IfOk result (λ part. part ≡ scanned self.now.context.now view.now.bytes.now view.now.base span.now opened) }
    {
        self.gate.scanning(worker, span.number, opened as u8);
        scan(
            self.alloc,
            self.context,
            view.bytes,
            view.base,
            span,
            opened,
        )
    }

    /// The part of a range in a state: the one that was kept of it, where that was opened in this state, and else a new one.
    pub fn part_in(
        &self,
        view: &View<'_>,
        span: &Span,
        state: State,
        kept: Option<Part>,
    ) -> Result<Part, NoMemory>
        requires within { IsSpanOf span.now view.now.bytes.now }
        requires kept { IfSome kept (IsScanOf self.now.context.now view.now.bytes.now view.now.base span.now) }
        ensures { IfOk result (λ part. part ≡ scanned self.now.context.now view.now.bytes.now view.now.base span.now state) }
    {
        if let Some(part) = kept {
            if part.opened() == state {
                return Ok(part);
            }
        }
        self.scan(CALLER, view, span, state)
    }
}
