// The words that the program is called with.
use std::env;
use std::io::ErrorKind;
use std::rt::Env;

/// Why there are no words.
#[derive(Clone, Copy)]
pub enum WordsFault {
    NotUtf8,
    NoMemory,
}

/// The fault of which an error speaks.
fn fault_of(kind: ErrorKind) -> WordsFault {
    match kind {
        ErrorKind::InvalidData => WordsFault::NotUtf8,
        _ => WordsFault::NoMemory,
    }
}

/// The words behind the program's own name.
pub fn read_words<R: Env + AllocGlobal>(rt: &R) -> Result<Vec<String>, WordsFault> {
    let args = match env::args(rt) {
        Ok(args) => args,
        Err(error) => return Err(fault_of(error.kind())),
    };
    let mut words = Vec::new(rt.alloc());
    for word in args.skip(1) {
        if words.push(word).is_err() {
            return Err(WordsFault::NoMemory);
        }
    }
    Ok(words)
}
