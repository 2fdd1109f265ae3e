// Values that an option doesn't allow.
use crate::given::{command_word, name_of, piece_of, subject, value_of};
use load_options::limits::{OUTPUT_NAME_LIMIT, TABLE_NAME_LIMIT};
use load_options::{Allowed, Reason, allowed_texts, command_of, why_refused, word_at};
use person_line::Line;
use person_line::Part::{Number, Text, Word};

/// The manual's "all rows", which is no number here.
const ALL_ROWS: &str = "sample_size=-1";

/// What is said of other names of types, in lower case (of DuckDB's manual, "Data Types").
const OTHER_TYPES: [(&str, &[&str]); 7] = [
    (": BOOLEAN is meant", &["boolean", "bool", "logical"]),
    (": BIGINT is meant", &["bigint", "int8", "long"]),
    (": DATE is meant", &["date"]),
    (": TIME is meant", &["time"]),
    (": TIMESTAMP is meant", &["timestamp", "datetime"]),
    (
        ": VARCHAR is meant",
        &["varchar", "char", "bpchar", "text", "string"],
    ),
    (
        ": fractions stay VARCHAR",
        &[
            "double", "float", "float4", "float8", "real", "decimal", "numeric",
        ],
    ),
];

/// What is said behind that a text is no type.
fn said_of_type(text: &str) -> &'static str {
    for (line, names) in &OTHER_TYPES {
        for name in *names {
            if text.eq_ignore_ascii_case(name) {
                return line;
            }
        }
    }
    " (in upper case: BOOLEAN, BIGINT, DATE, TIME, TIMESTAMP, VARCHAR)"
}

/// That a text is no type, and what is instead.
fn push_no_type(said: &mut Line, text: &str) {
    said.say("'{}' is no type{}", &[Word(text), Text(said_of_type(text))]);
}

/// That a piece has no type: of a pair behind its last colon.
fn push_untyped(said: &mut Line, name: &str, piece: &str, allowed: Allowed) {
    match (allowed, piece.rsplit_once(':')) {
        (Allowed::ColumnTypes, Some((_, ty))) => push_no_type(said, ty),
        (Allowed::ColumnTypes, None) => said.say(
            "'{}' gives no type: {} takes NAME:TYPE, cut at each comma",
            &[Word(piece), Text(name)],
        ),
        _ => push_no_type(said, piece),
    }
}

/// The least and the most of what an option takes, where it is a number or a name.
fn bounds(allowed: Allowed) -> (u64, u64) {
    match allowed {
        Allowed::Number(range) => (range.least, range.most),
        Allowed::TableName => (1, TABLE_NAME_LIMIT as u64),
        _ => (1, OUTPUT_NAME_LIMIT as u64),
    }
}

/// What an option takes.
fn push_taken(said: &mut Line, word: &str, allowed: Allowed) {
    let (least, most) = bounds(allowed);
    let template = match allowed {
        Allowed::Number(_) if word == ALL_ROWS => "a number from {} to {}; {} is the most",
        Allowed::Number(_) => "a number from {} to {}",
        Allowed::Delim => "one ASCII character, or \\t for a tab",
        Allowed::Choice => "one ASCII character, or nothing",
        Allowed::Truth => "true or false",
        Allowed::Text | Allowed::Names | Allowed::Types | Allowed::ColumnTypes => "another text",
        Allowed::Nulls => "texts, cut at each comma; nullstr= gives the empty one alone",
        Allowed::Format => "csv, sqlite or npz",
        Allowed::TableName => {
            "a name of {} to {} bytes that isn't reject_scans or reject_errors and doesn't begin with sqlite_"
        }
        Allowed::FileName => "a file's name of {} to {} bytes",
    };
    said.say(template, &[Number(least), Number(most), Number(most)]);
}

/// The text that comes twice: of a pair its name.
fn doubled(piece: &str, allowed: Allowed) -> &str {
    match (allowed, piece.rsplit_once(':')) {
        (Allowed::ColumnTypes, Some((name, _))) => name,
        _ => piece,
    }
}

/// Why a word's value is refused.
fn push_reason(said: &mut Line, word: &str, allowed: Allowed, reason: Reason) {
    let (name, value) = (name_of(word), value_of(word));
    match reason {
        Reason::TooMany(most) => {
            said.say("{} takes {} at most", &[Text(name), Number(most as u64)]);
        }
        Reason::Empty(place) => {
            let number = Number((place as u64).saturating_add(1));
            said.say("name {} of {} is empty", &[number, Text(name)]);
        }
        Reason::Twice(place) => {
            let text = Word(doubled(piece_of(value, place), allowed));
            said.say("'{}' stands twice in {}", &[text, Text(name)]);
        }
        Reason::NoType(place) => push_untyped(said, name, piece_of(value, place), allowed),
        Reason::Other => {
            said.say("'{}' is refused: {} takes ", &[Word(word), Text(name)]);
            push_taken(said, word, allowed);
        }
    }
}

/// Why the word behind the command is refused.
fn push_bad_subject(said: &mut Line, words: &[String]) {
    let template = match command_word(words) {
        "make" => "'{}' is no number: {} takes one from 0 to 4294967295",
        _ => "'{}' is refused: {} takes 1 to 1000 names with commas between them, none empty",
    };
    said.say(template, &[Word(subject(words)), Text(command_word(words))]);
}

/// Why a value is refused.
pub fn push_bad_value(said: &mut Line, words: &[String], index: usize) {
    if index == 1 {
        return push_bad_subject(said, words);
    }
    let word = word_at(words, index);
    let allowed = match command_of(command_word(words)) {
        Some(command) => allowed_texts(command, name_of(word).as_bytes()),
        None => None,
    };
    if let Some(allowed) = allowed
        && let Ok(Some(reason)) = why_refused(said.alloc(), allowed, value_of(word).as_bytes())
    {
        return push_reason(said, word, allowed, reason);
    }
    said.say("'{}' gives a value that isn't allowed there", &[Word(word)]);
}
