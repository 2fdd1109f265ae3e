// Words that may be worth a try, after an answer.
use call_advice::{gives, is_given};
use csv_sniffer::Noticed;
use person_line::Line;
use person_line::Part::{Number, Text};

/// The mark that may stand before a text in UTF-8.
pub const MARK: &[u8] = b"\xef\xbb\xbf";

/// What begins a line that tells the delimiter to a spreadsheet.
const SEPARATOR: &str = "sep=";

/// A hint at another delimiter, where one column was found. A tab is written as the option takes it.
fn push_delim(said: &mut Line, delim: u8) {
    said.next_line();
    said.push("hint: most rows have one field; 'delim=");
    if delim == b'\t' {
        said.push("\\t");
    } else {
        said.push_char(char::from(delim));
    }
    said.push("' may give more");
}

/// A hint at so many lines that look like comment lines.
fn push_comment(said: &mut Line, lines: u64) {
    let (begin, them) = match lines {
        1 => ("line begins", "it"),
        _ => ("lines begin", "them"),
    };
    said.next_line();
    said.say(
        "hint: {} {} with '#'; 'comment=#' passes over {}",
        &[Number(lines), Text(begin), Text(them)],
    );
}

/// A hint at a quote by which no field is quoted.
fn push_quote(said: &mut Line, quote: u8) {
    said.next_line();
    said.push("hint: the quote ");
    said.push_char(char::from(quote));
    said.push(" was found, and no field is quoted by it; 'quote=' takes it as text");
}

/// The first line of a file with these first bytes, without a mark and as far as they go.
pub fn first_line(front: &[u8]) -> &[u8] {
    let text = front.strip_prefix(MARK).unwrap_or(front);
    match text
        .iter()
        .position(|byte| *byte == b'\n' || *byte == b'\r')
    {
        Some(end) => text.get(..end).unwrap_or(text),
        None => text,
    }
}

/// A text without the quotes around it.
fn unquoted(text: &str) -> &str {
    match text.strip_prefix('"') {
        Some(rest) => rest.strip_suffix('"').unwrap_or(text),
        None => text,
    }
}

/// Whether a line tells the delimiter to a spreadsheet: `sep=` and one more character.
pub fn tells_delimiter(line: &[u8]) -> bool {
    let text = unquoted(str::from_utf8(line).unwrap_or(""));
    match (text.get(..SEPARATOR.len()), text.get(SEPARATOR.len()..)) {
        (Some(begin), Some(rest)) => { begin.eq_ignore_ascii_case(SEPARATOR) && rest.len() == 1 }
        _ => false,
    }
}

/// The hints at what was noticed in a file with these first bytes, each on a line. The text that explains what was found has
/// all but the one at another delimiter itself.
pub fn push_noticed(said: &mut Line, words: &[String], front: &[u8], noticed: Noticed) {
    if let Some(delim) = noticed.other_delim {
        push_delim(said, delim);
    }
    if gives(words, "explain", "true") {
        return;
    }
    if 0 < noticed.comment_lines && !is_given(words, "comment") {
        push_comment(said, noticed.comment_lines);
    }
    if tells_delimiter(first_line(front)) && !is_given(words, "skip") {
        said.next_line();
        said.push("hint: line 1 says how the file is written; 'skip=1' passes over it");
    }
    if let Some(quote) = noticed.idle_quote {
        push_quote(said, quote);
    }
}
