// A line on standard error that shows how far the reading has come.
use csv_source::STANDARD_INPUT;
use person_line::Part::Number;
use person_line::{Line, ScreenLine};
use std::alloc::Global;
use std::fs;
use std::io::Eprint;
use std::rt::Files;
use std::time::{Clock, Duration, Instant};

/// How long the reading goes on in silence, in milliseconds.
const SILENCE: u64 = 1000;

/// How long a line stands before the next, in milliseconds.
const STEP: u64 = 100;

const MEGABYTE: u64 = 1_000_000;

/// A line that shows how much of a file was read, where its reading takes longer than a second.
#[derive(Drop)]
pub struct ProgressLine<'a, R> {
    rt: &'a R,
    line: &'a ScreenLine<'a, R>,
    /// When the line is due; none where nothing is to be shown.
    next: Option<Instant>,
    read: u64,
    size: u64,
}

/// How much was read, of how much where the file tells its size, which a pipe doesn't.
fn progress_line(alloc: Global, read: u64, size: u64) -> Line {
    let template = if 0 < size && read <= size {
        "csvload: {} of {} MB read"
    } else {
        "csvload: {} MB read"
    };
    let mut said = Line::new(alloc);
    said.say(
        template,
        &[Number(read / MEGABYTE), Number(size / MEGABYTE)],
    );
    said
}

impl<'a, R: Clock + Eprint + Files + AllocGlobal> ProgressLine<'a, R> {
    /// Nothing was read, and nothing is ever shown where `shows` is false.
    pub fn new(rt: &'a R, line: &'a ScreenLine<'a, R>, shows: bool) -> ProgressLine<'a, R> {
        let next = match Instant::now(rt) {
            Ok(now) if shows => now.checked_add(Duration::from_millis(SILENCE)),
            _ => None,
        };
        ProgressLine {
            rt,
            line,
            next,
            read: 0,
            size: 0,
        }
    }

    /// Begins with a file. Of standard input no size is asked.
    pub fn begin(&mut self, name: &str) {
        self.read = 0;
        self.size = 0;
        if name == STANDARD_INPUT {
            return;
        }
        if let Ok(metadata) = fs::metadata(self.rt, name) {
            self.size = metadata.len();
        }
    }

    /// Goes on by so many bytes, and shows them where the line is due.
    pub fn advance(&mut self, count: usize) {
        self.read = self.read.saturating_add(count as u64);
        let (Some(next), Ok(now)) = (self.next, Instant::now(self.rt)) else {
            return;
        };
        if now < next {
            return;
        }
        self.next = now.checked_add(Duration::from_millis(STEP));
        self.line
            .show(&progress_line(self.rt.alloc(), self.read, self.size));
    }
}
