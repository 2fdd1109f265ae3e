// What the words give.
use load_options::{NumberRange, option_named, word_at};
use value_types::number_within;

/// The file, the number or the names of files.
const SUBJECT: usize = 1;

/// The words behind the file that give options.
pub const FIRST_OPTION: usize = 2;

/// The command.
pub fn command_word(words: &[String]) -> &str {
    word_at(words, 0)
}

/// The word behind the command.
pub fn subject(words: &[String]) -> &str {
    word_at(words, SUBJECT)
}

/// The file of that number, from 0.
pub fn file_at(words: &[String], number: u64) -> &str {
    let word = subject(words);
    match command_word(words) {
        "batch" => piece_of(word, number as usize),
        _ => word,
    }
}

/// What stands before the first `=` of a word, or the word.
pub fn name_of(word: &str) -> &str {
    match word.split_once('=') {
        Some((name, _)) => name,
        None => word,
    }
}

/// What stands behind the first `=` of a word.
pub fn value_of(word: &str) -> &str {
    match word.split_once('=') {
        Some((_, value)) => value,
        None => "",
    }
}

/// Whether a word gives the option of that name, by this one or a second one.
pub fn gives_option(word: &str, name: &str) -> bool {
    match word.split_once('=') {
        Some((given, _)) => option_named(given.as_bytes()) == option_named(name.as_bytes()),
        None => false,
    }
}

/// Whether a word gives one of these options.
pub fn gives_one_of(word: &str, options: &[&str]) -> bool {
    for name in options {
        if gives_option(word, name) {
            return true;
        }
    }
    false
}

/// The first word that gives the option of that name.
pub fn word_giving<'a>(words: &'a [String], name: &str) -> Option<&'a str> {
    for word in words.iter().skip(FIRST_OPTION) {
        if gives_option(word.as_str(), name) {
            return Some(word.as_str());
        }
    }
    None
}

/// Whether a word gives that value to the option of that name.
pub fn gives(words: &[String], name: &str, value: &str) -> bool {
    match word_giving(words, name) {
        Some(word) => value_of(word) == value,
        None => false,
    }
}

/// Whether an option is given.
pub fn is_given(words: &[String], name: &str) -> bool {
    word_giving(words, name).is_some()
}

/// The piece of that place of a text that is cut at each comma.
pub fn piece_of(text: &str, place: usize) -> &str {
    text.split(',').nth(place).unwrap_or("")
}

/// How many pieces a value has that is cut at commas.
pub fn count_of_pieces(value: &str) -> usize {
    value.split(',').count()
}

/// The number that an option has: the one that is given, or its default.
pub fn number_given(words: &[String], name: &str, range: NumberRange) -> u64 {
    match word_giving(words, name) {
        Some(word) => {
            number_within(value_of(word).as_bytes(), range.most).unwrap_or(range.default)
        }
        None => range.default,
    }
}
