// Words as a shell takes them, in commands that may be copied: a file's name comes from whoever made the file.
use crate::glyphs::is_seen;
use crate::line::Line;
use csv_source::STANDARD_INPUT;

/// Whether a shell takes a byte of a word as it stands.
fn is_plain(byte: u8) -> bool {
    byte.is_ascii_alphanumeric() || b"=,.:_-/".contains(&byte)
}

/// Whether a shell takes a word as it stands. Some shells take one that begins with `=` for the name of a program.
fn is_bare(word: &str) -> bool {
    for byte in word.as_bytes() {
        if !is_plain(*byte) {
            return false;
        }
    }
    !word.is_empty() && !word.starts_with('=')
}

/// Whether all characters of a word are seen as they are: what is copied from the line would be another word otherwise.
pub fn can_be_copied(word: &str) -> bool {
    for character in word.chars() {
        if !is_seen(character) {
            return false;
        }
    }
    true
}

/// A plain text and a word behind it as one word that a shell takes. The line isn't whole where that can't be copied.
pub fn push_quoted(said: &mut Line, front: &str, word: &str) {
    if !can_be_copied(word) {
        said.give_up();
    }
    let quote = if is_bare(word) { "" } else { "'" };
    said.push(quote);
    said.push(front);
    for character in word.chars() {
        // No backslash is heard between single quotes, so one of them ends the text before it.
        match character {
            '\'' => said.push("'\\''"),
            _ => said.push_char(character),
        }
    }
    said.push(quote);
}

/// What stands before a file's name, so that no program takes it for an option.
pub fn folder_of(name: &str) -> &'static str {
    if name != STANDARD_INPUT && name.starts_with('-') {
        "./"
    } else {
        ""
    }
}

/// Names of files with commas between, with another text in place of one of them, as the one word that `batch` takes.
pub fn push_list(said: &mut Line, files: &str, file: &str, other: &str) {
    let mut list = Line::new(said.alloc());
    for (place, name) in files.split(',').enumerate() {
        if place > 0 {
            list.push(",");
        }
        let name = if name == file { other } else { name };
        list.push(folder_of(name));
        list.push(name);
    }
    said.quote(&list);
}
