// What an input is where it is no CSV as it stands, told by its first bytes.

/// How many bytes of a file's front tell.
pub const FRONT: usize = 64;

/// What an input is.
#[derive(Clone, Copy)]
pub enum Content {
    /// What is said of it, and the program that makes CSV of it.
    Through(&'static str, &'static str),
    /// What is said of it, and what helps.
    Other(&'static str),
}

/// Bytes that aren't UTF-8, taken for the commonest of such encodings.
pub const NOT_UTF8: Content = Content::Through("isn't UTF-8", "iconv -f LATIN1 -t UTF-8");

/// How a file begins, what is said of it then, and the program that makes CSV of it.
const THROUGH: [(&[u8], &str, &str); 6] = [
    (b"\x1f\x8b", "is compressed", "gunzip -c"),
    (b"BZh", "is compressed", "bunzip2 -c"),
    (b"\xfd7zXZ\0", "is compressed", "xz -dc"),
    (b"\x28\xb5\x2f\xfd", "is compressed", "zstd -dc"),
    (b"\xff\xfe", "is UTF-16", "iconv -f UTF-16 -t UTF-8"),
    (b"\xfe\xff", "is UTF-16", "iconv -f UTF-16 -t UTF-8"),
];

/// What is said of an archive.
const ZIP: &str = "is a zip archive or a workbook: unpack it, or save the sheet as CSV";

/// How a file begins of which no program makes CSV, and what is said of it then.
const OTHER: [(&[u8], &str); 8] = [
    (b"PK\x03\x04", ZIP),
    (b"PK\x05\x06", ZIP),
    (
        b"\xd0\xcf\x11\xe0\xa1\xb1\x1a\xe1",
        "is a workbook: save the sheet as CSV",
    ),
    (b"PAR1", "is Parquet, no CSV"),
    (b"SQLite format 3\0", "is an SQLite database, no CSV"),
    (b"%PDF-", "is a PDF, no CSV"),
    (b"{\"", "is JSON"),
    (b"[{", "is JSON"),
];

/// How a page begins, in small letters.
const PAGES: [&[u8]; 2] = [b"<!doctype", b"<html"];

/// The fewest bytes that tell UTF-16 without its mark.
const LEAST: usize = 8;

/// Whether the bytes at odd places, or those at even ones, are NUL, and no others.
fn is_each_nul(front: &[u8], at_odd: bool) -> bool {
    let mut odd = false;
    for byte in front {
        if (*byte == 0) != (odd == at_odd) {
            return false;
        }
        odd = !odd;
    }
    LEAST <= front.len()
}

/// Whether a page begins so.
fn is_page(front: &[u8]) -> bool {
    let text = front.trim_ascii_start();
    for page in &PAGES {
        if let Some(begin) = text.get(..page.len())
            && begin.eq_ignore_ascii_case(page)
        {
            return true;
        }
    }
    false
}

/// What a file is of which a program makes CSV.
fn through(front: &[u8]) -> Option<Content> {
    for (begin, state, tool) in &THROUGH {
        if front.starts_with(begin) {
            return Some(Content::Through(state, tool));
        }
    }
    if is_each_nul(front, true) {
        return Some(Content::Through("is UTF-16", "iconv -f UTF-16LE -t UTF-8"));
    }
    if is_each_nul(front, false) {
        return Some(Content::Through("is UTF-16", "iconv -f UTF-16BE -t UTF-8"));
    }
    None
}

/// What a file is of which no program makes CSV.
fn other(front: &[u8]) -> Option<Content> {
    for (begin, state) in &OTHER {
        if front.starts_with(begin) {
            return Some(Content::Other(state));
        }
    }
    if is_page(front) {
        return Some(Content::Other("is an HTML page"));
    }
    None
}

impl Content {
    /// What a file with these first bytes is; none where it may be CSV.
    pub fn of_front(front: &[u8]) -> Option<Content> {
        match through(front) {
            Some(content) => Some(content),
            None => other(front),
        }
    }
}
