//! Cases of the whole loader as data, so that a case costs no proof. Each line of standard input has words and files,
//! parted by `¦`, and where it says so how the outside behaves; the status and the text that they come to are printed, or
//! whether the text has some parts. What is wanted stands in the file `stdout`. A line that begins with `#` says what the
//! next ones show, and is printed as it is.
#![tactic(auto)]

mod case;
mod escapes;
mod field;
mod printing;

use crate::case::Case;
use crate::printing::print_run;
use csv_source::{Failed, NoMemory, Sink, StdoutSink, write_all};
use loader_runs::Run;
use std::alloc::Global;
use std::process::ExitCode;
use std::sync::Wait;
use std::thread::Threads;

/// The sizes of ranges in which a case is tried again, each on 1, 2, 4 and 64 threads.
const SIZES: [usize; 16] = [1, 2, 3, 4, 5, 6, 7, 8, 9, 10, 11, 12, 13, 14, 15, 16];

/// Memory was refused, or a write failed.
#[derive(Drop)]
pub struct Stopped;

impl From<NoMemory> for Stopped {
    fn from(_: NoMemory) -> Stopped {
        Stopped
    }
}

impl From<Failed> for Stopped {
    fn from(_: Failed) -> Stopped {
        Stopped
    }
}

/// Prints what the case of a line comes to.
fn print_case<R: Threads + Wait + Sync, K: Sink>(
    rt: &R,
    alloc: Global,
    sink: &mut K,
    line: &str,
) -> Result<(), Stopped> {
    let case = Case::of(alloc, line)?;
    let files = case.files(alloc)?;
    let run = Run {
        words: &case.words,
        files: &files,
        outside: case.outside,
        cut: None,
    };
    if case.in_all_ranges && !run.is_one_in(rt, alloc, &SIZES)? {
        write_all(sink, b"another reply in other ranges\n")?;
        return Ok(());
    }
    print_run(rt, alloc, sink, &run, &case.parts)
}

/// Prints a line that says what the next ones show, or what the case of a line comes to.
fn print_line<R: Threads + Wait + Sync, K: Sink>(
    rt: &R,
    alloc: Global,
    sink: &mut K,
    line: &str,
) -> Result<(), Stopped> {
    if !line.starts_with('#') {
        return print_case(rt, alloc, sink, line);
    }
    write_all(sink, line.as_bytes())?;
    write_all(sink, b"\n")?;
    Ok(())
}

fn main(rt: HostRuntime) -> ExitCode {
    let mut sink = StdoutSink::new(&rt);
    for line in rt.lines(rt.alloc()) {
        let done = match line {
            Ok(line) => print_line(&rt, rt.alloc(), &mut sink, &line).is_ok(),
            Err(_) => false,
        };
        if !done {
            return ExitCode::from(1);
        }
    }
    ExitCode::from(0)
}
