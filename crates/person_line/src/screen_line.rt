// A line on the terminal of standard error that is taken away before anything else is written there.
ghost use Rattle.std.specs.Prelude.{◌≡◌};

use crate::line::Line;
use csv_source::{Failed, Sink};
use std::io::Eprint;
use std::sync::atomic::{AtomicBool, Ordering};

/// Goes to the front of the line on a terminal, and erases it.
const ERASE: &str = "\r\x1b[2K";

/// The line. Who reads may show it, and who writes ends it, each by a reference of its own.
#[derive(Drop)]
pub struct ScreenLine<'a, R> {
    rt: &'a R,
    is_shown: AtomicBool,
    is_over: AtomicBool,
}

impl<'a, R: Eprint> ScreenLine<'a, R> {
    /// A line of which nothing is shown yet.
    pub fn new(rt: &'a R) -> ScreenLine<'a, R> {
        ScreenLine {
            rt,
            is_shown: AtomicBool::new(false),
            is_over: AtomicBool::new(false),
        }
    }

    /// Shows a whole line in place of the one that stands there. What can't be written is left out.
    pub fn show(&self, said: &Line) {
        if self.is_over.load(Ordering::SeqCst) || !said.is_whole() {
            return;
        }
        self.is_shown.store(true, Ordering::SeqCst);
        let _ = self.rt.eprint(ERASE);
        let _ = self.rt.eprint(said.text());
    }

    /// Takes the line away, where there is one, and shows none from then on.
    pub fn end(&self) {
        self.is_over.store(true, Ordering::SeqCst);
        if self.is_shown.swap(false, Ordering::SeqCst) {
            let _ = self.rt.eprint(ERASE);
        }
    }
}

/// A sink before whose first byte the line is taken away: both may go to one terminal.
#[derive(Drop)]
pub struct BehindLine<'a, R, K> {
    line: &'a ScreenLine<'a, R>,
    sink: K,
}

impl<'a, R: Eprint, K: Sink> BehindLine<'a, R, K> {
    pub fn new(line: &'a ScreenLine<'a, R>, sink: K) -> BehindLine<'a, R, K> {
        BehindLine { line, sink }
    }

    /// The sink behind the line.
    pub fn into_sink(self) -> K {
        self.sink
    }
}

impl<'a, R: Eprint, K: Sink> Sink for BehindLine<'a, R, K> {
    ghost taken = { λ s. K.taken s.sink };

    ghost faults = { λ s. K.faults s.sink };

    fn write(&mut self, piece: &[u8]) -> Result<usize, Failed> {
        self.line.end();
        self.sink.write(piece)
    }

    fn begin(&mut self, is_whole: bool) {
        self.sink.begin(is_whole);
    }
}
