// What a shell's `>` does to a file, and what leaves it as it was.
use crate::message::Run;
use call_advice::{gives, is_given};
use person_line::Line;
use person_line::Part::{Name, Text};
use std::fs;
use std::os::unix::fs::MetadataExt;
use std::rt::Files;

/// Standard output, by a name.
const STANDARD_OUTPUT: &str = "/dev/stdout";

/// Whether a file is the one to which standard output goes.
fn is_written<R: Files>(rt: &R, name: &str) -> bool {
    match (fs::metadata(rt, name), fs::metadata(rt, STANDARD_OUTPUT)) {
        (Ok(file), Ok(output)) => {
            file.is_file() && file.dev() == output.dev() && file.ino() == output.ino()
        }
        _ => false,
    }
}

/// A hint at a file that was emptied before it was read.
pub fn push_emptied<R: Files>(rt: &R, said: &mut Line, run: Run<'_>) {
    let name = run.opened;
    if !is_given(run.words, "output") && is_written(rt, name) {
        said.next_line();
        said.say(
            "hint: '{}' is standard output itself, which the shell emptied; ",
            &[Name(name)],
        );
        said.push("output=FILE writes it when it was read");
    }
}

/// What words want written that isn't text.
fn wanted_of(words: &[String]) -> Option<&'static str> {
    if gives(words, "to", "sqlite") {
        Some("database")
    } else if gives(words, "to", "npz") {
        Some("arrays")
    } else {
        None
    }
}

/// That a report stands in a file where a database or arrays were wanted.
pub fn push_only_report<R: Files>(rt: &R, said: &mut Line, words: &[String]) {
    if let Some(wanted) = wanted_of(words)
        && !is_given(words, "output")
        && let Ok(output) = fs::metadata(rt, STANDARD_OUTPUT)
        && output.is_file()
    {
        said.next_line();
        said.say(
            "standard output has the report, and no {}; ",
            &[Text(wanted)],
        );
        said.push("output=FILE leaves a file as it was");
    }
}
