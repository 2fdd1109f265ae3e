// The file to which the text of status 0 goes.
use csv_source::{NoMemory, OutputSink};
use person_line::Line;
use person_line::Part::Name;
use std::alloc::Global;
use std::fs;
use std::io::{ErrorKind, Print};
use std::rt::Files;

/// A file by its names.
#[derive(Drop)]
pub struct Output {
    /// The name that it is to have.
    name: Line,
    /// The name that it has until it is whole.
    part: Line,
    /// What SQLite names the files that it keeps beside a database. It would lay them over a new one.
    journal: Line,
    log: Line,
    is_database: bool,
}

/// Why the file can't be written.
#[derive(Clone, Copy)]
pub enum Unwritten<'a> {
    /// A file of this name, which a program keeps beside its database, is there.
    InUse(&'a str),
    /// The system refused it.
    Refused(ErrorKind),
}

/// A name and what stands behind it.
fn joined(alloc: Global, name: &str, suffix: &str) -> Line {
    let mut joined = Line::new(alloc);
    joined.push(name);
    joined.push(suffix);
    joined
}

/// What is said of a file that the system refused.
fn template_of(kind: ErrorKind) -> &'static str {
    match kind {
        ErrorKind::NotFound | ErrorKind::NotADirectory => {
            "'{}' can't be written: its folder isn't there"
        }
        ErrorKind::IsADirectory => "'{}' is a folder",
        ErrorKind::InvalidInput => "'{}' is no regular file",
        ErrorKind::PermissionDenied | ErrorKind::ReadOnlyFilesystem => {
            "'{}' may not be written by you"
        }
        ErrorKind::StorageFull | ErrorKind::QuotaExceeded => {
            "'{}' can't be written: the disk is full"
        }
        ErrorKind::AlreadyExists => {
            "'{}.part' is there: another run is writing it, or one was ended; without one remove it"
        }
        _ => "'{}' can't be written",
    }
}

impl Output {
    /// The file of a name, and of what else it is known by.
    pub fn of_name(alloc: Global, name: &str, is_database: bool) -> Result<Output, NoMemory> {
        let output = Output {
            name: joined(alloc, name, ""),
            part: joined(alloc, name, ".part"),
            journal: joined(alloc, name, "-journal"),
            log: joined(alloc, name, "-wal"),
            is_database,
        };
        let are_named = output.name.is_whole() && output.part.is_whole();
        let is_whole = are_named && output.journal.is_whole() && output.log.is_whole();
        if is_whole { Ok(output) } else { Err(NoMemory) }
    }

    /// The file that is there beside a database.
    fn beside<R: Files>(&self, rt: &R) -> Option<&str> {
        if !self.is_database {
            return None;
        }
        if fs::symlink_metadata(rt, self.journal.text()).is_ok() {
            return Some(self.journal.text());
        }
        if fs::symlink_metadata(rt, self.log.text()).is_ok() {
            return Some(self.log.text());
        }
        None
    }

    /// The sink that makes the file, where nothing is in its way.
    pub fn open<'a, R: Files + Print>(
        &'a self,
        rt: &'a R,
    ) -> Result<OutputSink<'a, R>, Unwritten<'a>> {
        if let Some(beside) = self.beside(rt) {
            return Err(Unwritten::InUse(beside));
        }
        match OutputSink::of_file(rt, self.name.text(), self.part.text()) {
            Ok(sink) => Ok(sink),
            Err(kind) => Err(Unwritten::Refused(kind)),
        }
    }

    /// Why the file can't be written.
    pub fn push_unwritten(&self, said: &mut Line, why: Unwritten<'_>) {
        let template = match why {
            Unwritten::InUse(beside) => {
                said.say("'{}' is there: a program has ", &[Name(beside)]);
                "'{}' open, or ended badly with it"
            }
            Unwritten::Refused(kind) => template_of(kind),
        };
        said.say(template, &[Name(self.name.text())]);
    }
}
