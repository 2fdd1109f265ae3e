// Files, of which is remembered what a person may want to know.
ghost use Rattle.std.specs.Prelude.{◌≡◌};

use crate::progress::ProgressLine;
use call_advice::SeenFile;
use csv_source::{Failed, STANDARD_INPUT, Source};
use person_line::ScreenLine;
use std::io::Eprint;
use std::rt::Files;
use std::time::Clock;

/// What is said before a reading waits for what a person types.
const TYPED: &str = "csvload: reading from the terminal; ctrl-D ends it";

/// Files, the name of the one that was opened last, what is remembered of each in the order in which they were opened, and a
/// line that shows how much of the last one was read. What was scanned is behind that: by the window under scan and, with several workers, by the next one, which is read
/// meanwhile; with `pipeline=true`, whose reading waits for no scan, it may be further.
#[derive(Drop)]
pub struct WatchedFiles<'a, R: AllocGlobal, S> {
    rt: &'a R,
    files: S,
    progress: ProgressLine<'a, R>,
    name: String,
    seen: Vec<SeenFile>,
    is_typed: bool,
}

impl<'a, R: Clock + Eprint + Files + AllocGlobal, S: Source> WatchedFiles<'a, R, S> {
    /// Files of which none was opened. How much is read of them is shown on a line where `shows` is true. Standard input is a
    /// terminal where `is_typed` is.
    pub fn new(
        rt: &'a R,
        files: S,
        line: &'a ScreenLine<'a, R>,
        shows: bool,
        is_typed: bool,
    ) -> WatchedFiles<'a, R, S> {
        WatchedFiles {
            rt,
            files,
            progress: ProgressLine::new(rt, line, shows),
            name: String::new(rt.alloc()),
            seen: Vec::new(rt.alloc()),
            is_typed,
        }
    }

    /// The name that was opened last, or that couldn't be; empty where none was, or memory was wanting.
    pub fn name(&self) -> &str {
        self.name.as_str()
    }

    /// What is remembered of each file, in the order in which they were opened.
    pub fn seen(&self) -> &[SeenFile] {
        &self.seen
    }
}

impl<'a, R: Clock + Eprint + Files + AllocGlobal, S: Source> Source for WatchedFiles<'a, R, S> {
    ghost held = { λ s. S.held s.files };

    ghost left = { λ s. S.left s.files };

    ghost faults = { λ s. S.faults s.files };

    fn open(&mut self, name: &str) -> Result<(), Failed> {
        let _ = self.seen.push(SeenFile::new(self.rt.alloc()));
        self.name = String::from_str(self.rt.alloc(), name).unwrap_or(String::new(self.rt.alloc()));
        if self.is_typed && name == STANDARD_INPUT {
            let _ = self.rt.eprintln(TYPED);
        }
        self.files.open(name)?;
        self.progress.begin(name);
        Ok(())
    }

    fn read(&mut self, buf: &mut [u8]) -> Result<usize, Failed> {
        let count = self.files.read(buf)?;
        self.progress.advance(count);
        if let Some(file) = self.seen.last_mut() {
            file.advance(&buf[..count]);
        }
        Ok(count)
    }
}
