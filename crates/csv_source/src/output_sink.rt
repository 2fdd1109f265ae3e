// A file that is whole or isn't touched. What is written of it stands under another name until all of it is there.
ghost use Rattle.std.specs.Prelude.{◌≡◌, None, IfOk};

use crate::real::write_once;
use crate::{Failed, Sink, StdoutSink};
use std::fs::{File, OpenFile};
use std::io::{ErrorKind, Print};
use std::rt::Files;
use std::{fs, io};

/// A file that is being written.
#[derive(Drop)]
struct PartFile<'a, F> {
    /// The name that it is to have.
    name: &'a str,
    /// The name that it has so far.
    part: &'a str,
    file: F,
}

/// Standard output, and a file where one is named. The text of a run that ends with status 0 goes to the file, any other
/// to standard output.
#[derive(Drop)]
pub struct OutputSink<'a, R: Files + Print> {
    rt: &'a R,
    stdout: StdoutSink<'a, R>,
    file: Option<PartFile<'a, R::File>>,
    /// Whether the text that comes is told to be the file's.
    to_file: bool,
    faults: u64,
    /// Why the file isn't whole, where the system refused it.
    cause: Option<ErrorKind>,
}

/// Tries whether a name is free, or that of a file that can be replaced. A symbolic link is replaced itself.
fn try_name<R: Files>(rt: &R, name: &str) -> Result<(), ErrorKind> {
    match fs::symlink_metadata(rt, name) {
        Ok(there) if there.is_file() || there.is_symlink() => Ok(()),
        Ok(there) if there.is_dir() => Err(ErrorKind::IsADirectory),
        Ok(_) => Err(ErrorKind::InvalidInput),
        Err(error) if error.kind() == ErrorKind::NotFound => Ok(()),
        Err(error) => Err(error.kind()),
    }
}

/// Gives a file its name, once all of it is on the disk.
fn keep<R: Files>(rt: &R, file: PartFile<'_, R::File>) -> io::Result<()> {
    let PartFile { name, part, file } = file;
    file.sync_all()?;
    drop(file);
    fs::rename(rt, part, name)
}

impl<'a, R: Files + Print> OutputSink<'a, R> {
    /// Standard output alone.
    pub fn standard(rt: &'a R) -> OutputSink<'a, R>
        ensures { ⟦<OutputSink<'a, R> as Sink>⟧.faults result ≡ 0 }
    {
        OutputSink {
            rt,
            stdout: StdoutSink::new(rt),
            file: None,
            to_file: false,
            faults: 0,
            cause: None,
        }
    }

    /// A file of that name, which stands under another one in the same folder until it is whole. Fails where it can't be
    /// made there, as where one of that other name is there: another run may be writing it, or it is somebody's.
    pub fn of_file(rt: &'a R, name: &'a str, part: &'a str) -> Result<OutputSink<'a, R>, ErrorKind>
        ensures { IfOk result (λ sink. ⟦<OutputSink<'a, R> as Sink>⟧.faults sink ≡ 0) }
    {
        try_name(rt, name)?;
        let file = File::create_new(rt, part).map_err(|error| error.kind())?;
        Ok(OutputSink {
            rt,
            stdout: StdoutSink::new(rt),
            file: Some(PartFile { name, part, file }),
            to_file: false,
            faults: 0,
            cause: None,
        })
    }

    /// Whether a write to standard output failed since nobody reads what is written.
    pub fn is_closed(&self) -> bool {
        self.stdout.is_closed()
    }

    /// Why the file isn't whole, where the system refused it.
    pub fn cause(&self) -> Option<ErrorKind> {
        self.cause
    }

    /// Ends the writing. A file that has all of its text takes its name, and any other is removed, as is one that can't be
    /// brought to the disk or take its name.
    pub fn finish(&mut self, is_whole: bool) -> Result<(), Failed> {
        let Some(file) = self.file.take() else {
            return Ok(());
        };
        let part = file.part;
        if !is_whole || !self.to_file {
            let _ = fs::remove_file(self.rt, part);
            return Ok(());
        }
        match keep(self.rt, file) {
            Ok(()) => Ok(()),
            Err(error) => {
                let _ = fs::remove_file(self.rt, part);
                self.cause = Some(error.kind());
                Err(Failed)
            }
        }
    }
}

impl<'a, R: Files + Print> Sink for OutputSink<'a, R> {
    ghost taken = { λ _. None };

    ghost faults = { λ s. s.faults };

    fn write(&mut self, piece: &[u8]) -> Result<usize, Failed> {
        let result = match &mut self.file {
            Some(open) if self.to_file => match write_once(&mut open.file, piece) {
                Ok(count) => Ok(count),
                Err(kind) => {
                    self.cause = Some(kind);
                    Err(Failed)
                }
            },
            _ => self.stdout.write(piece),
        };
        if result.is_err() {
            self.faults = self.faults.saturating_add(1);
        }
        result
    }

    fn begin(&mut self, is_whole: bool) {
        self.to_file = is_whole;
    }
}
