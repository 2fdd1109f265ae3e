// Why a file couldn't be read.
use crate::again::push_again;
use crate::given::{command_word, gives};
use csv_source::STANDARD_INPUT;
use person_line::Part::Subject;
use person_line::{Line, can_be_copied, push_list};
use std::fs;
use std::io::ErrorKind;
use std::rt::Files;

/// What the system says of a file that is opened.
fn kind_in_opening<R: Files>(rt: &R, name: &str) -> ErrorKind {
    match fs::open(rt, name) {
        Err(error) => error.kind(),
        Ok(_) => ErrorKind::Other,
    }
}

/// What the system says of a file. Only a regular one is opened again: to open a pipe might wait.
fn kind_at<R: Files>(rt: &R, name: &str) -> ErrorKind {
    match fs::metadata(rt, name) {
        Err(error) => error.kind(),
        Ok(metadata) if metadata.is_dir() => ErrorKind::IsADirectory,
        Ok(metadata) if metadata.is_file() => kind_in_opening(rt, name),
        Ok(_) => ErrorKind::Other,
    }
}

/// Options that `batch` doesn't take as they are given.
fn not_of_batch(words: &[String]) -> &'static [&'static str] {
    if gives(words, "to", "csv") {
        &["explain", "to"]
    } else {
        &["explain"]
    }
}

/// Whether a file of that name is there.
pub fn is_there<R: Files>(rt: &R, name: &str) -> bool {
    fs::metadata(rt, name).is_ok()
}

/// Whether files of all names are there that stand in one with commas between.
fn are_there<R: Files>(rt: &R, names: &str) -> bool {
    for name in names.split(',') {
        if !is_there(rt, name) {
            return false;
        }
    }
    true
}

/// Whether a name is those of several files, which `batch` reads.
fn names_several<R: Files>(rt: &R, words: &[String], name: &str) -> bool {
    !matches!(command_word(words), "batch" | "split")
        && name.contains(',')
        && can_be_copied(name)
        && are_there(rt, name)
}

/// That a file isn't there, and what may have been meant.
fn push_absent<R: Files>(rt: &R, said: &mut Line, words: &[String], name: &str) {
    if names_several(rt, words, name) {
        said.push("several files: csvload batch ");
        push_list(said, name, "", "");
        return push_again(said, words, not_of_batch(words));
    }
    said.say("{} isn't there", &[Subject(name)]);
    if command_word(words) == "batch" && name.starts_with(' ') {
        said.push("; no space stands behind a comma");
    }
}

/// Why a file couldn't be read.
pub fn push_read_fault<R: Files>(rt: &R, said: &mut Line, words: &[String], name: &str) {
    if name == STANDARD_INPUT {
        return said.push("standard input can't be read");
    }
    let template = match kind_at(rt, name) {
        ErrorKind::NotFound | ErrorKind::NotADirectory => {
            return push_absent(rt, said, words, name);
        }
        ErrorKind::PermissionDenied => "{} may not be read by you",
        ErrorKind::IsADirectory => "{} is a folder",
        _ => "{} can't be opened or read",
    };
    said.say(template, &[Subject(name)]);
}
