// Words that give no option.
use crate::given::{FIRST_OPTION, command_word, name_of, subject, value_of};
use crate::read_fault::is_there;
use csv_source::STANDARD_INPUT;
use load_options::{allowed_texts, command_of, word_at};
use person_line::Part::{File, Name, Text, Word};
use person_line::{Line, can_be_copied, folder_of};
use std::rt::Files;

/// Options that one command takes alone.
const OF_ONE: [(&str, &str); 4] = [
    ("explain", "sniff"),
    ("same_header", "batch"),
    ("size", "split"),
    ("rows", "make"),
];

/// Names that other programs have for options.
const OTHER_NAMES: [(&str, &str); 3] = [("out", "output"), ("o", "output"), ("d", "delim")];

/// Whether the command has an option of that name.
fn is_option(words: &[String], name: &str) -> bool {
    match command_of(command_word(words)) {
        Some(command) => allowed_texts(command, name.as_bytes()).is_some(),
        None => false,
    }
}

/// Whether the file may have been written behind an option.
fn file_is_behind(words: &[String], index: usize) -> bool {
    let file = subject(words);
    index == FIRST_OPTION
        && (file.contains('=') || (file.starts_with('-') && file != STANDARD_INPUT))
        && !word_at(words, index).contains('=')
}

/// What stands beside a name in a list.
fn listed(list: &[(&str, &'static str)], name: &str) -> Option<&'static str> {
    for (listed, beside) in list {
        if *listed == name {
            return Some(beside);
        }
    }
    None
}

/// That a word is no option, and the one that is meant.
fn push_meant(said: &mut Line, word: &str, name: &str, value: &str) {
    let is_told = !value.is_empty() && can_be_copied(value);
    let value = if is_told { value } else { "VALUE" };
    said.say("'{}' is no option: ", &[Word(word)]);
    said.quoted("{}={}", &[Text(name), Text(value)]);
    said.push(" is meant");
}

/// Whether a line is the name of a file that is there, and can be copied.
fn names_file<R: Files>(rt: &R, name: &Line) -> bool {
    name.is_whole() && is_there(rt, name.text()) && can_be_copied(name.text())
}

/// That the words from the file on are one name with spaces, as far as a file of it is there, and whether one is.
fn push_spaced_name<R: Files>(rt: &R, said: &mut Line, words: &[String]) -> bool {
    let mut name = Line::new(said.alloc());
    name.push(subject(words));
    for word in words.iter().skip(FIRST_OPTION) {
        name.say(" {}", &[Text(word.as_str())]);
        if names_file(rt, &name) {
            said.say(
                "a name with spaces stands in quotes: {}",
                &[File(name.text())],
            );
            return true;
        }
    }
    false
}

/// Whether a file and the word behind it may be meant as the files of a batch, which can't have a name with a comma; that of
/// `batch` itself has them already.
fn may_be_files(words: &[String], word: &str) -> bool {
    let (command, file) = (command_word(words), subject(words));
    let is_cut = command != "batch" && (file.contains(',') || word.contains(','));
    !matches!(command, "make" | "split")
        && !word.is_empty()
        && !word.starts_with('-')
        && !is_cut
        && can_be_copied(file)
        && can_be_copied(word)
}

/// How several files are read.
fn push_files(said: &mut Line, words: &[String], word: &str) {
    let file = subject(words);
    let is_list = command_word(words) == "batch";
    let folder = if is_list { "" } else { folder_of(file) };
    said.push("; several files: csvload batch ");
    said.quoted("{}{},{}", &[Text(folder), Text(file), Text(word)]);
}

/// Whether a word is meant for standard input in place of the file.
fn is_input(words: &[String], word: &str) -> bool {
    word == STANDARD_INPUT && !matches!(command_word(words), "batch" | "make")
}

/// That a word without `=` is no option, and what may have been meant.
fn push_lone_word(said: &mut Line, words: &[String], word: &str) {
    said.say("'{}' is no option", &[Word(word)]);
    if is_option(words, word) {
        said.say(": one is written {}=VALUE", &[Text(word)]);
    } else if is_input(words, word) {
        let template = ": standard input stands in place of the file: csvload {} -";
        said.say(template, &[Text(command_word(words))]);
    } else if may_be_files(words, word) {
        push_files(said, words, word);
    } else {
        said.push(": one is written NAME=VALUE");
    }
}

/// That the option is meant that has a name in lower case, and whether there is one.
fn push_lower(said: &mut Line, words: &[String], word: &str, name: &str) -> bool {
    let mut small = Line::new(said.alloc());
    for character in name.chars() {
        small.push_char(character.to_ascii_lowercase());
    }
    let is_meant = small.text() != name && is_option(words, small.text());
    if is_meant {
        push_meant(said, word, small.text(), value_of(word));
    }
    is_meant
}

/// Why a word with `=` gives no option, by the name that it has without dashes.
fn push_unknown(said: &mut Line, words: &[String], word: &str, name: &str) {
    if push_lower(said, words, word, name) {
        return;
    }
    let command = Text(command_word(words));
    if word.starts_with('-') && !name.is_empty() {
        let template = "no option has dashes, and {} is none of {}";
        said.say(template, &[Word(name), command]);
    } else if let Some(only) = listed(&OF_ONE, name) {
        said.say("{} is an option of {}", &[Text(name), Text(only)]);
    } else {
        let template = "'{}' gives no option of {} (see csvload --help)";
        said.say(template, &[Word(word), command]);
    }
}

/// The option that has another name in other programs.
fn other_name(words: &[String], word: &str, name: &str) -> Option<&'static str> {
    let meant = listed(&OTHER_NAMES, name)?;
    let is_one = word.contains('=') || word.starts_with('-');
    if is_one && is_option(words, meant) {
        Some(meant)
    } else {
        None
    }
}

/// The value of a word, or the word behind where it has none.
fn value_at(words: &[String], index: usize) -> &str {
    match word_at(words, index).split_once('=') {
        Some((_, value)) => value,
        None => word_at(words, index.saturating_add(1)),
    }
}

/// Why a word gives no option.
pub fn push_bad_option<R: Files>(rt: &R, said: &mut Line, words: &[String], index: usize) {
    let word = word_at(words, index);
    let name = name_of(word.trim_start_matches('-'));
    if file_is_behind(words, index) {
        let template = "'{}' was taken as the file: the file comes first";
        said.say(template, &[Name(subject(words))]);
    } else if word.starts_with('-') && is_option(words, name) {
        let template = "'{}' is no option: one is written {}=VALUE, without dashes";
        said.say(template, &[Word(word), Text(name)]);
    } else if let Some(meant) = other_name(words, word, name) {
        push_meant(said, word, meant, value_at(words, index));
    } else if word.contains('=') {
        push_unknown(said, words, word, name);
    } else if !push_spaced_name(rt, said, words) {
        push_lone_word(said, words, word);
    }
}
