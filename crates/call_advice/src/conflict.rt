// Options that can't stand together.
use crate::given::{command_word, count_of_pieces, value_of, word_giving};
use load_options::{Conflict, command_of, conflict_behind};
use person_line::Line;
use person_line::Part::{Number, Text, Word};

/// That a format isn't the command's.
fn other_format(command: &str, format: &str) -> &'static str {
    match (command, format) {
        ("batch", _) => {
            "batch writes no CSV: it prints its report, a database with to=sqlite, or arrays with to=npz"
        }
        ("profile" | "rejects", _) => "{} writes no other format than its CSV",
        (_, "csv") => "{} writes no CSV: convert does",
        (_, "npz") => "{} writes no arrays: convert and batch do",
        _ => "{} writes no database: convert and batch do",
    }
}

/// What an option wants that can't stand alone, or why two can't stand together; of the format that is given, what the
/// command writes.
fn reason(conflict: Conflict, command: &str, format: &str) -> &'static str {
    match conflict {
        Conflict::LimitsNoRejects => "{} wants store_rejects=true",
        Conflict::VarcharAndTypes => "{} and {} can't stand together: each gives all types",
        Conflict::CountsDiffer => "names gives {} and types {}: as many of each are wanted",
        Conflict::DelimIsQuote
        | Conflict::DelimIsEscape
        | Conflict::CommentIsDelim
        | Conflict::CommentIsQuote
        | Conflict::CommentIsEscape => "{} and {} are the same character",
        Conflict::EscapeWithoutQuote => "{} and {} can't stand together: an escape wants a quote",
        Conflict::LeavesNoQuote => {
            "{} wants a quote, and {} and {} leave none to be found: give it by quote="
        }
        Conflict::NamesNoTable => "{} wants to=sqlite",
        Conflict::WritesOther => other_format(command, format),
        Conflict::TypesTwice => {
            "{} and {} can't stand together: types gives all columns their types"
        }
        Conflict::VarcharAndColumnTypes => {
            "{} and {} can't stand together: all columns are VARCHAR then"
        }
        Conflict::NullsTwice => "{} and {} can't stand together: nulls takes all the texts",
        Conflict::BoundsNone => "{} wants ignore_errors=true or store_rejects=true",
        Conflict::NamesNoHeader => "{} and {} can't stand together: given names are no header's",
        Conflict::ComparesNoHeader => "{} and {} can't stand together: there is no header then",
        Conflict::LacksSize => "{} wants size=BYTES: size=134217728 makes parts of about 128 MiB",
    }
}

/// The word that gives an option.
fn word_of<'a>(words: &'a [String], name: &str) -> &'a str {
    word_giving(words, name).unwrap_or("")
}

/// Why words can't stand together.
fn push_told(said: &mut Line, words: &[String], conflict: Conflict) {
    let (name, other) = conflict.options();
    let (first, second) = (word_of(words, name), word_of(words, other));
    let command = command_word(words);
    let why = reason(conflict, command, value_of(first));
    match conflict {
        Conflict::CountsDiffer => {
            let names = count_of_pieces(value_of(first)) as u64;
            let types = count_of_pieces(value_of(second)) as u64;
            said.say(why, &[Number(names), Number(types)]);
        }
        Conflict::WritesOther | Conflict::LacksSize => said.say(why, &[Text(command)]),
        Conflict::LeavesNoQuote => {
            let escape = word_of(words, "escape");
            said.say(why, &[Word(escape), Word(first), Word(second)]);
        }
        _ => said.say(why, &[Word(first), Word(second)]),
    }
}

/// The conflict for which words are refused.
fn found(said: &Line, words: &[String]) -> Option<Conflict> {
    let [command, _, options @ ..] = words else {
        return None;
    };
    let command = command_of(command.as_str())?;
    // Where memory is wanting, none is known.
    conflict_behind(said.alloc(), command, options).unwrap_or(None)
}

/// Why the words, of which this one is refused, can't stand together.
pub fn push_conflict(said: &mut Line, words: &[String], word: &str) {
    match found(said, words) {
        Some(conflict) => push_told(said, words, conflict),
        None => said.say("'{}' can't stand beside the other words", &[Word(word)]),
    }
}
