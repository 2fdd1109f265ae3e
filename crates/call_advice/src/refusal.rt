// Why the words are refused.
use crate::bad_option::push_bad_option;
use crate::conflict::push_conflict;
use crate::given::{command_word, name_of, word_giving};
use crate::value_advice::push_refused_value;
use load_options::{WordFault, WordRule, word_at};
use person_line::Line;
use person_line::Part::{Text, Word};
use std::rt::Files;

/// What is wanted behind a command.
fn wanted_behind(command: &str) -> &'static str {
    match command {
        "make" => "a number is wanted after {} (see csvload --help)",
        "batch" => "names of files are wanted after {} (see csvload --help)",
        _ => "a file's name is wanted after {} (see csvload --help)",
    }
}

/// That a word is no command.
fn push_bad_command(said: &mut Line, word: &str) {
    let template = match word {
        "-v" => "'-v' is no command: -V or version is meant",
        _ => {
            "'{}' is no command: load, summary, profile, convert, rejects, batch, sniff, split and make are (see csvload --help)"
        }
    };
    said.say(template, &[Word(word)]);
}

/// That an option is given twice.
fn push_repeated(said: &mut Line, words: &[String], word: &str) {
    let first = word_giving(words, name_of(word)).unwrap_or(word);
    let template = "'{}' gives an option that '{}' gave before";
    said.say(template, &[Word(word), Word(first)]);
}

/// Why the words are refused.
pub fn push_refusal<R: Files>(rt: &R, said: &mut Line, words: &[String], fault: WordFault) {
    let word = word_at(words, fault.index);
    let command = command_word(words);
    match fault.rule {
        WordRule::NoCommand => said.push(
            "a command is wanted: load, summary, profile, convert, rejects, batch, sniff, split or make (see csvload --help)",
        ),
        WordRule::BadCommand => push_bad_command(said, word),
        WordRule::NoFile => said.say(wanted_behind(command), &[Text(command)]),
        WordRule::BadOption => push_bad_option(rt, said, words, fault.index),
        WordRule::BadValue => push_refused_value(said, words, fault.index),
        WordRule::Repeated => push_repeated(said, words, word),
        WordRule::Conflict => push_conflict(said, words, word),
    }
}
