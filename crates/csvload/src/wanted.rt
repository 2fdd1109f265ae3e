// What words want written, and where.
use call_advice::{value_of, word_giving};
use csv_source::NoMemory;
use load_options::{OutputFormat, WordStop, parse_words};
use program_answer::own_text;
use std::alloc::Global;

/// What words want written, and where.
#[derive(Clone, Copy)]
pub struct Wanted<'a> {
    /// The format that is given.
    pub format: Option<OutputFormat>,
    /// The name of a file; standard output where there is none.
    pub output: Option<&'a str>,
}

/// The file that accepted words name.
fn output_name(words: &[String]) -> Option<&str> {
    match word_giving(words, "output") {
        Some(word) => Some(value_of(word)),
        None => None,
    }
}

/// What words want. Those that are refused, or ask for a text of the program's own, want nothing.
pub fn wanted_by(alloc: Global, words: &[String]) -> Result<Wanted<'_>, NoMemory> {
    let (format, output) = match own_text(words) {
        Some(_) => (None, None),
        None => match parse_words(alloc, words) {
            Ok(request) => (request.options.to, output_name(words)),
            Err(WordStop::Fault(_)) => (None, None),
            Err(WordStop::NoMemory) => return Err(NoMemory),
        },
    };
    Ok(Wanted { format, output })
}
