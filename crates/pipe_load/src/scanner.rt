//! The scans of the ranges of a window.
ghost use Rattle.std.specs.Prelude.{◌≡◌, IfOk};
ghost use Rattle.range_guess.specs.Span.{IsSpanOf};
ghost use Rattle.pipe_load.specs.Layout.{IsLayout, IsStretchOf};

use crate::layout::Layout;
use crate::window::Window;
use csv_source::{Gate, NoMemory};
use quote_automaton::State;
use range_guess::{Stretch, guess_of};
use range_scan::{Part, RangeScanner, Span, View};
use std::collections::VecDeque;

/// A window with the parts of its first ranges, each opened in its guess.
#[derive(Drop)]
pub struct Kept {
    pub window: Window,
    pub parts: VecDeque<Part>,
}

/// Scans ranges of windows that lie in the data by a layout.
#[derive(Drop)]
pub struct Scanner<'a, G: Gate> {
    pub ranges: RangeScanner<'a, G>,
    pub layout: Layout,
    ghost lies: { IsLayout layout },
}

impl<'a, G: Gate> Scanner<'a, G> {
    ghost use Rattle.pipe_load.specs.Layout.{base_of, stretch_of, stretch_len};
    ghost use Rattle.pipe_load.specs.Scanning.{opening_of, guessed_parts, IsScanned};

    /// The state in which a range is scanned first: the data's first range opens where a row begins, any other in its guess.
    fn opening(&self, bytes: &[u8], span: &Span) -> State
        requires { IsSpanOf span.now bytes.now }
        ensures { result ≡ opening_of self.now.ranges.context.now.dialect bytes.now span.now }
    {
        if span.number == 0 {
            return State::RowStart;
        }
        guess_of(&self.ranges.context.dialect, bytes, span)
    }

    /// Scans all ranges of a window, each in its guess.
    fn scan_all(
        &self,
        worker: u32,
        window: &Window,
        base: u64,
        stretch: &Stretch,
    ) -> Result<VecDeque<Part>, NoMemory>
        requires base { base ≡ base_of self.now.layout window.now }
        requires is { stretch.now ≡ stretch_of self.now.layout window.now }
        requires within { IsStretchOf base stretch.now window.now.bytes }
        ensures { IfOk result (λ parts. parts.items ≡ guessed_parts self.now.ranges.context.now self.now.layout window.now (stretch_len self.now.layout window.now)) }
    {
        let bytes = window.bytes();
        let view = View { bytes, base };
        let mut parts = VecDeque::new(self.ranges.alloc);
        for range in 0..stretch.count() {
            let span = stretch.span_of(range);
            self.ranges.gate.claimed(worker, span.number);
            let opened = self.opening(bytes, &span);
            parts.push_back(self.ranges.scan(worker, &view, &span, opened)?)?;
        }
        Ok(parts)
    }

    /// A window with the parts of all its ranges, each in its guess.
    pub fn scan_window(&self, worker: u32, window: Window) -> Result<Kept, NoMemory>
        ensures value { IfOk result (λ kept. IsScanned self.now.ranges.context.now self.now.layout kept) }
        ensures same { IfOk result (λ kept. kept.window ≡ window) }
    {
        let (base, stretch) = self.layout.stretch_of(&window)?;
        let parts = self.scan_all(worker, &window, base, &stretch)?;
        Ok(Kept { window, parts })
    }
}
