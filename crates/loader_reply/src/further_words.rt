// The words of a part of a file beside those that fix what was found.
ghost use Rattle.std.specs.Prelude.{◌≡◌, ◌++◌, ◌∷◌, [], filter, IfOk, OnOk};
ghost use Rattle.load_options.specs.Given.{name_part};
ghost use Rattle.loader_reply.specs.FurtherWords.{further_words, is_found_option, is_further, is_whole_option};
ghost use Rattle.loader_reply.specs.Reply.{texts};

use csv_source::NoMemory;
use load_options::{option_named, word_at};
use std::alloc::Global;
use value_types::Names;

/// The place of the first option among words.
const FIRST_OPTION: usize = 2;

/// What stands before the first `=` of a word.
fn name_part(word: &str) -> &str
    ensures { result.now ≡ name_part word.now }
{
    match word.split_once('=') {
        Some((name, _)) => name,
        None => word,
    }
}

/// Whether what was found stands for an option.
fn is_found_option(option: &[u8]) -> bool
    ensures { result ≡ is_found_option option.now }
{
    option == b"delim".as_slice()
        || option == b"quote".as_slice()
        || option == b"escape".as_slice()
        || option == b"header".as_slice()
        || option == b"types".as_slice()
        || option == b"column_types".as_slice()
        || option == b"all_varchar".as_slice()
}

/// Whether an option is one of the whole file.
fn is_whole_option(option: &[u8]) -> bool
    ensures { result ≡ is_whole_option option.now }
{
    option == b"size".as_slice() || option == b"output".as_slice()
}

/// Whether a part needs the word that gives an option.
fn is_further(word: &str) -> bool
    ensures { result ≡ is_further word.now }
{
    let option = option_named(name_part(word).as_bytes());
    !(is_found_option(option) || is_whole_option(option))
}

/// Puts a word behind others, if a part needs it.
fn push_further(further: &mut Names, word: &str) -> Result<(), NoMemory>
    ensures ok { OnOk result (further.new ≡ further.old ++ filter is_further (word.now ∷ [])) }
{
    if is_further(word) {
        further.push(word.as_bytes())?;
    }
    Ok(())
}

/// The words behind the command and the file that each part needs, in their order.
pub fn further_words(alloc: Global, words: &[String]) -> Result<Names, NoMemory>
    ensures ok { IfOk result (λ further. further ≡ further_words (texts words.now)) }
{
    let mut further = Names::new(alloc);
    for place in FIRST_OPTION..words.len() {
        push_further(&mut further, word_at(words, place))?;
    }
    Ok(further)
}
