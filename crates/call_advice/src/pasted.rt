// The words of an explanation as a command that may be copied.
use crate::again::push_kept;
use crate::given::{command_word, gives, subject};
use person_line::Line;
use person_line::Part::File;

/// What begins the line of the report that has the words.
const WORDS: &[u8] = b"words|";

/// How many bytes of a text tell what hints need: the first line of a report, and its columns or a table's names.
const FRONT: usize = 4096;

/// How many bytes of a text tell the parts of a file: some 1,500,000 of them.
const PARTS: usize = 1 << 26;

/// Options in whose place the words stand, and those of the explanation.
const REPLACED: [&str; 7] = [
    "explain", "output", "delim", "quote", "escape", "header", "types",
];

/// How much of the text that is written has to be known: all that explains a file, most of what tells its parts, and else the
/// front, where it is for a person to read.
pub fn most_kept(words: &[String]) -> usize {
    match command_word(words) {
        "sniff" if gives(words, "explain", "true") => usize::MAX,
        "split" => PARTS,
        "convert" if gives(words, "to", "sqlite") || gives(words, "to", "npz") => 0,
        "batch" | "convert" | "load" | "profile" | "sniff" | "summary" => FRONT,
        _ => 0,
    }
}

/// What stands behind the line's beginning, where the report has such a line.
fn words_line(report: &[u8]) -> Option<&str> {
    for line in report.split(|byte| *byte == b'\n') {
        if let Some(words) = line.strip_prefix(WORDS) {
            return str::from_utf8(words).ok();
        }
    }
    None
}

/// Goes on with a space and a word as a shell takes it.
fn push_word(call: &mut Line, word: &Line) {
    call.push(" ");
    call.quote(word);
}

/// The words of a line. A tab is written as the option takes it.
fn push_found(call: &mut Line, line: &str) {
    let mut word = Line::new(call.alloc());
    let mut is_escaped = false;
    for character in line.chars() {
        match (is_escaped, character) {
            (false, '\\') => {}
            (false, '|') => {
                push_word(call, &word);
                word = Line::new(call.alloc());
            }
            (true, 't') if word.text() == "delim=" => word.push("\\t"),
            (true, '\\' | '|') | (false, _) => word.push_char(character),
            (true, _) => call.give_up(),
        }
        is_escaped = !is_escaped && character == '\\';
    }
    push_word(call, &word);
}

/// The call of `load` with the words that fix what was found, and the other words that were given, on a line; none where the
/// report has no such words, or some can't be copied.
pub fn push_pasted(said: &mut Line, words: &[String], report: &[u8]) {
    let Some(line) = words_line(report) else {
        return;
    };
    let mut call = Line::new(said.alloc());
    call.say("csvload load {}", &[File(subject(words))]);
    push_kept(&mut call, words, &REPLACED);
    push_found(&mut call, line);
    if call.is_whole() {
        said.next_line();
        said.push(call.text());
    }
}
