//! Words and requests out of a line.
ghost use Rattle.load_options.specs.Accepted.{IsAccepted};

use csv_source::NoMemory;
use load_options::{Request, parse_words};
use std::alloc::Global;
use std::process::Abort;

/// Words out of a line that is cut at spaces.
fn words_in(alloc: Global, line: &str) -> Result<Vec<String>, NoMemory> {
    let mut words = Vec::new(alloc);
    if !line.is_empty() {
        for word in line.split(' ') {
            words.push(String::from_str(alloc, word)?)?;
        }
    }
    Ok(words)
}

/// The same, where there is memory.
pub fn words_of(rt: &impl Abort, alloc: Global, line: &str) -> Vec<String> {
    words_in(alloc, line).expect(rt, "memory")
}

/// Whether the words of a line are accepted.
pub fn is_accepted(rt: &impl Abort, alloc: Global, line: &str) -> bool {
    parse_words(alloc, &words_of(rt, alloc, line)).is_ok()
}

/// The request of accepted words.
pub fn accepted(rt: &impl Abort, alloc: Global, line: &str) -> Request
    ensures { IsAccepted result.options }
{
    match parse_words(alloc, &words_of(rt, alloc, line)) {
        Ok(request) => request,
        Err(stop) => panic!(rt; "{line}: {stop:?}"),
    }
}
