//! What one field of a line says.

/// A field by how it begins.
pub enum Field<'a> {
    Word(&'a str),
    /// The name of a file, and its bytes.
    File(&'a str, &'a str),
    /// How many times these bytes stand behind those of the file before.
    More(usize, &'a str),
    /// Which of the outside's numbers is another.
    Setting(&'a str, usize),
    /// A part to look for in the text.
    Part(&'a str),
    InAllRanges,
}

/// The number of a text; 0 where it has none.
fn number_of(text: &str) -> usize {
    text.parse::<usize>().unwrap_or(0)
}

/// The field of a text with `<` in it.
fn file_of<'a>(name: &'a str, bytes: &'a str) -> Field<'a> {
    match name.strip_prefix('*') {
        Some(times) => Field::More(number_of(times), bytes),
        None if name.is_empty() => Field::File("f.csv", bytes),
        None => Field::File(name, bytes),
    }
}

/// The field of a text that begins with `@`.
fn setting_of(text: &str) -> Field<'_> {
    match text.split_once('=') {
        Some((name, number)) => Field::Setting(name, number_of(number)),
        None => Field::Setting(text, 0),
    }
}

/// `NAME<BYTES` is a file, `<BYTES` is `f.csv`, and `*N<BYTES` stands N times behind the file before. `@NAME=N` is a
/// setting, `?TEXT` a part to look for, and `>` says that all ranges give the same. Any other field is a word, as is one
/// with `=` before `<`.
pub fn field_of(text: &str) -> Field<'_> {
    if text == ">" {
        return Field::InAllRanges;
    }
    if let Some(part) = text.strip_prefix('?') {
        return Field::Part(part);
    }
    if let Some(setting) = text.strip_prefix('@') {
        return setting_of(setting);
    }
    match text.split_once('<') {
        Some((name, bytes)) if !name.contains('=') => file_of(name, bytes),
        _ => Field::Word(text),
    }
}
