// What helps against a first fault.
use crate::cast_help::push_cast_help;
use crate::cut_hint::push_skip;
use call_advice::{
    Content, NOT_UTF8, count_of_pieces, gives, is_given, number_given, push_again, push_content,
    value_of, word_giving,
};
use csv_sniffer::Sniffed;
use load_options::limits::MAX_LINE_SIZE;
use person_line::Part::{File, Number, Text};
use person_line::{Line, can_be_copied};
use reject_book::{ErrorKind, Reject};

/// What helps against any fault.
const ANY: &str = "ignore_errors=true passes over faulty rows, store_rejects=true lists them";

/// The byte that ends a text of DOS.
const DOS_END: &[u8] = b"\x1a";

/// Options that `sniff` doesn't take as they are given, or that it is given there.
const NOT_OF_SNIFF: [&str; 5] = ["to", "table", "same_header", "explain", "output"];

/// A first fault, and what is known of the run that it ended.
#[derive(Clone, Copy)]
pub struct FirstFault<'a> {
    pub words: &'a [String],
    /// The name of the file, its first bytes, and how many bytes of it were read.
    pub file: &'a str,
    pub front: &'a [u8],
    pub read: u64,
    /// What was found in the first file.
    pub sniffed: &'a Sniffed,
    pub reject: &'a Reject,
}

/// The option that gives as many columns as it has pieces, and its value.
fn giving_columns(words: &[String]) -> Option<(&'static str, &str)> {
    for name in ["types", "names"] {
        if let Some(word) = word_giving(words, name) {
            return Some((name, value_of(word)));
        }
    }
    None
}

impl FirstFault<'_> {
    /// Whether a row has too few columns or too many.
    fn is_of_columns(&self) -> bool {
        matches!(
            self.reject.error_type,
            ErrorKind::MissingColumns | ErrorKind::TooManyColumns
        )
    }

    /// Whether the file may have another header than the first one, and that may be told.
    fn may_have_other_header(&self) -> bool {
        0 < self.reject.file_id
            && self.sniffed.header
            && !gives(self.words, "same_header", "true")
            && !is_given(self.words, "names")
    }

    /// Whether rows look like comment lines, and nothing is said of these.
    fn may_have_comments(&self) -> bool {
        0 < self.sniffed.noticed.comment_lines && !is_given(self.words, "comment")
    }

    /// Whether the row stands above the first one of the first file that has as many fields as most, and lines may be passed over.
    fn is_above_rows(&self) -> bool {
        matches!(self.reject.error_type, ErrorKind::MissingColumns)
            && self.reject.file_id == 0
            && self.reject.line <= self.sniffed.noticed.lines_above
            && !is_given(self.words, "skip")
    }

    /// Whether the row is the byte that ends a text of DOS, at the end of the file.
    fn is_dos_end(&self) -> bool {
        matches!(self.reject.error_type, ErrorKind::MissingColumns)
            && self.reject.csv_line.as_slice() == DOS_END
            && self.read <= self.reject.line_byte_position.saturating_add(1)
    }

    /// Whether a larger row could be taken.
    fn may_be_longer(&self) -> bool {
        number_given(self.words, "max_line_size", MAX_LINE_SIZE) < MAX_LINE_SIZE.most
    }

    /// Whether a quote stands in the row behind a delimiter and a space.
    fn has_spaced_quote(&self) -> bool {
        let spaced = [self.sniffed.dialect.delim(), b' ', b'"'];
        let row = self.reject.csv_line.as_slice();
        row.windows(spaced.len())
            .any(|bytes| bytes == spaced.as_slice())
    }

    /// What tells how the rows are cut.
    fn push_cutting(&self, said: &mut Line) {
        if can_be_copied(self.file) {
            said.say("csvload sniff {} explain=true", &[File(self.file)]);
            push_again(said, self.words, &NOT_OF_SNIFF);
            said.push(" tells how the rows are cut; ");
        }
    }

    /// What helps against faults of its kind.
    fn push_by_kind(&self, said: &mut Line) {
        match self.reject.error_type {
            ErrorKind::MissingColumns => {
                said.push("null_padding=true takes missing columns as null; ");
            }
            ErrorKind::TooManyColumns if self.has_spaced_quote() => {
                said.push("a quote behind a space is text; ");
            }
            ErrorKind::TooManyColumns => self.push_cutting(said),
            ErrorKind::LineSize if self.may_be_longer() => {
                said.say(
                    "max_line_size={} is the most; ",
                    &[Number(MAX_LINE_SIZE.most)],
                );
            }
            ErrorKind::Cast => push_cast_help(said, self),
            _ => {}
        }
    }

    /// What the file is, where it is no CSV as it stands.
    fn content(&self) -> Option<Content> {
        match (Content::of_front(self.front), self.reject.error_type) {
            (Some(content), _) => Some(content),
            (None, ErrorKind::InvalidUnicode) => Some(NOT_UTF8),
            (None, _) => None,
        }
    }
}

/// What helps against a fault of columns where the words give them.
fn push_given(said: &mut Line, name: &str, value: &str) {
    let count = count_of_pieces(value);
    let columns = if count == 1 { "column" } else { "columns" };
    said.say(
        "{} gives {} {}",
        &[Text(name), Number(count as u64), Text(columns)],
    );
}

/// What helps against a first fault: the first that holds.
pub fn push_help(said: &mut Line, fault: &FirstFault<'_>) {
    if let Some(content) = fault.content() {
        return push_content(said, fault.words, fault.file, content);
    }
    if fault.is_of_columns()
        && let Some((name, value)) = giving_columns(fault.words)
    {
        return push_given(said, name, value);
    }
    if fault.may_have_other_header() {
        said.push("same_header=true tells a file with another header; ");
    } else if fault.is_of_columns() && fault.may_have_comments() {
        said.push("comment=# passes over lines that begin with #; ");
    } else if fault.is_above_rows() {
        push_skip(said, "", fault.sniffed.noticed.lines_above);
        said.push("; ");
    } else if fault.is_dos_end() {
        return said.push("byte 1A ends a file of DOS; ignore_errors=true passes over it");
    } else {
        fault.push_by_kind(said);
    }
    said.push(ANY);
}
