// Hints at words that are taken for something else than is meant, after an answer.
use crate::hints::{first_line, tells_delimiter};
use crate::message::Run;
use call_advice::{
    Content, SeenFile, command_word, gives, is_given, subject, value_of, word_giving,
};
use load_options::{Allowed, why_refused};
use person_line::Part::{Name, Number, Text};
use person_line::{Line, can_be_copied};

/// What begins the report, and ends its first line where the file has a header.
const WITH_HEADER: (&[u8], &[u8]) = (b"options|", b"|header=true");

/// A text between quotes that is to be null.
fn is_quoted(text: &str) -> bool {
    1 < text.len() && text.starts_with('"') && text.ends_with('"')
}

/// A hint at several texts in one.
fn push_several(said: &mut Line, word: &str) {
    let value = value_of(word);
    let reason = why_refused(said.alloc(), Allowed::Nulls, value.as_bytes());
    if value.contains(',') && can_be_copied(word) && matches!(reason, Ok(None)) {
        said.next_line();
        let count = Number(value.split(',').count() as u64);
        let template = "hint: '{}' is one text; 'nulls={}' has {}";
        said.say(template, &[Text(word), Text(value), count]);
    }
}

/// A hint at quotes in texts.
fn push_quotes(said: &mut Line, value: &str) {
    if value.split(',').any(is_quoted) && can_be_copied(value) {
        said.next_line();
        said.push("hint: quotes are part of a text: 'nulls=");
        let mut is_first = true;
        for text in value.split(',') {
            if !is_first {
                said.push(",");
            }
            is_first = false;
            said.push(text.trim_matches('"'));
        }
        said.push("' has none");
    }
}

/// Whether a line may be a header that stands as it is read: no line of comments or on the file, and no field quoted.
fn may_be_header(line: &[u8]) -> bool {
    !line.starts_with(b"#") && !line.contains(&b'"') && !tells_delimiter(line)
}

/// Whether two lines may be headers, and differ.
fn differ(first: &[u8], other: &[u8]) -> bool {
    first != other && may_be_header(first) && may_be_header(other)
}

/// The first file of a batch that begins with another header than the first one.
fn other_header<'a>(words: &'a [String], seen: &[SeenFile]) -> Option<&'a str> {
    let first = first_line(seen.first()?.front());
    for (name, file) in subject(words).split(',').zip(seen.iter()) {
        let is_csv = Content::of_front(file.front()).is_none();
        if is_csv && differ(first, first_line(file.front())) {
            return Some(name);
        }
    }
    None
}

/// Whether the report says that there is a header, and no word says anything of it.
fn has_header(words: &[String], report: &[u8]) -> bool {
    let (begin, end) = WITH_HEADER;
    let line = first_line(report);
    for name in ["same_header", "names", "skip", "comment"] {
        if is_given(words, name) {
            return false;
        }
    }
    line.starts_with(begin) && line.ends_with(end)
}

/// The hints at words, each on a line.
pub fn push_word_hints(said: &mut Line, run: Run<'_>) {
    if gives(run.words, "delim", "t") {
        said.next_line();
        said.push("hint: delim=t is the letter; 'delim=\\t' is a tab");
    }
    if let Some(word) = word_giving(run.words, "nullstr") {
        push_several(said, word);
    }
    if let Some(word) = word_giving(run.words, "nulls") {
        push_quotes(said, value_of(word));
    }
    if command_word(run.words) == "batch"
        && has_header(run.words, run.text)
        && let Some(name) = other_header(run.words, run.seen)
    {
        said.next_line();
        said.say(
            "hint: '{}' begins with another header; 'same_header=true' refuses it",
            &[Name(name)],
        );
    }
}
