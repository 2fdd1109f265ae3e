// Hints at rows that may be cut otherwise: at a byte by which no candidate cuts, and at lines above the rows.
use crate::hints::{MARK, first_line, tells_delimiter};
use crate::message::Run;
use crate::text_columns::tells_one_text;
use call_advice::{SeenFile, gives, is_given};
use csv_sniffer::Noticed;
use person_line::Line;
use person_line::Part::{Number, Text};

/// Bytes that may cut rows and aren't tried, in the order in which they are looked for.
const SEPARATORS: [u8; 4] = [b'~', b':', b'^', b' '];

/// How often a byte stands in a line; none where two spaces stand together, which align columns.
fn count_in(line: &[u8], separator: u8) -> Option<usize> {
    if separator == b' ' && line.windows(2).any(|two| two == b"  ".as_slice()) {
        return None;
    }
    Some(line.iter().filter(|byte| **byte == separator).count())
}

/// The text before its last line end.
fn before_last_end(text: &[u8]) -> &[u8] {
    for (place, byte) in text.iter().enumerate().rev() {
        if *byte == b'\n' {
            return text.get(..place).unwrap_or(text);
        }
    }
    &[]
}

/// The whole lines of a file, as far as its first bytes are known.
fn whole_lines(file: &SeenFile) -> &[u8] {
    let front = file.front();
    let text = front.strip_prefix(MARK).unwrap_or(front);
    if file.read() == front.len() as u64 {
        text.strip_suffix(b"\n").unwrap_or(text)
    } else {
        before_last_end(text)
    }
}

/// How often a byte stands in each of some lines, where it is equally often and in enough of them.
fn count_in_each(text: &[u8], separator: u8) -> Option<usize> {
    let mut lines = text.split(|byte| *byte == b'\n');
    let count = count_in(lines.next()?, separator)?;
    let mut others = 0usize;
    for line in lines {
        if count_in(line, separator) != Some(count) {
            return None;
        }
        others = others.saturating_add(1);
    }
    if count > 0 && others > 0 {
        Some(count)
    } else {
        None
    }
}

/// The hint at another byte that stands equally often in the first lines of a file that was taken for one column of texts.
fn push_separator(said: &mut Line, file: &SeenFile) {
    for separator in SEPARATORS {
        if let Some(count) = count_in_each(whole_lines(file), separator) {
            let character = char::from(separator);
            said.next_line();
            said.say("hint: the first lines have {} '", &[Number(count as u64)]);
            said.push_char(character);
            said.push("' each; 'delim=");
            said.push_char(character);
            said.push("' cuts there");
            return;
        }
    }
}

/// What passes over so many lines, with the word between these quotes.
pub fn push_skip(said: &mut Line, quote: &str, lines: u64) {
    said.say("{}skip={}{} ", &[Text(quote), Number(lines), Text(quote)]);
    match lines {
        1 => said.push("passes over the first line"),
        _ => said.say("passes over the first {} lines", &[Number(lines)]),
    }
}

/// Whether the words leave it open where the header stands, and short rows weren't padded.
fn is_header_open(words: &[String]) -> bool {
    for name in ["header", "names", "skip"] {
        if is_given(words, name) {
            return false;
        }
    }
    !gives(words, "null_padding", "true")
}

/// The hint at a header that hasn't as many fields as the rows below, all of which agree.
fn push_other_header(said: &mut Line, lines: u64) {
    said.next_line();
    said.push("hint: the header hasn't as many fields as the rows; ");
    push_skip(said, "'", lines);
    said.push(", and a text with the delimiter in it stands between quotes");
}

/// Whether the lines above the rows are told of already.
fn is_told(run: Run<'_>, noticed: Noticed) -> bool {
    let tells = match run.seen.first() {
        Some(file) => tells_delimiter(first_line(file.front())),
        None => false,
    };
    tells || noticed.comment_lines > 0 || gives(run.words, "explain", "true")
}

/// The hint at another byte, where one column of texts was found and no delimiter is given or hinted at; and that at a header
/// of its own, where all rows below it agree.
pub fn push_cut(said: &mut Line, run: Run<'_>, noticed: Noticed, faults: u64) {
    let is_delim_open = noticed.other_delim.is_none() && !is_given(run.words, "delim");
    if is_delim_open
        && tells_one_text(run.text)
        && let Some(file) = run.seen.first()
    {
        push_separator(said, file);
    }
    if noticed.lines_above > 0
        && faults == 0
        && is_header_open(run.words)
        && !is_told(run, noticed)
    {
        push_other_header(said, noticed.lines_above);
    }
}
