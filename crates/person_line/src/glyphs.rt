// Bytes as a person sees them on a terminal: nothing of them moves its cursor.
use unicode_width::UnicodeWidthChar;

/// A character as it stands on a line, or a byte that can't.
#[derive(Clone, Copy)]
pub enum Glyph {
    /// Itself.
    Plain(char),
    /// A backslash and this character.
    Marked(char),
    /// A backslash, an x and the two hexadecimal digits of a byte.
    Hex(u8),
}

/// What a backslash stands before.
#[derive(Clone, Copy)]
pub enum Spelling {
    /// What can't be seen: a word is shown as it was typed.
    Word,
    /// Bars and backslashes too, as in the report.
    Row,
}

impl Glyph {
    /// How many bytes it stands for.
    pub fn bytes(self) -> usize {
        match self {
            Glyph::Plain(character) => character.len_utf8(),
            Glyph::Marked(_) | Glyph::Hex(_) => 1,
        }
    }

    /// How many characters show it.
    pub fn characters(self) -> usize {
        match self {
            Glyph::Plain(_) => 1,
            Glyph::Marked(_) => 2,
            Glyph::Hex(_) => 4,
        }
    }

    /// How many columns of a terminal it takes.
    pub fn columns(self) -> usize {
        match self {
            Glyph::Plain(character) => character.width().unwrap_or(0),
            Glyph::Marked(_) | Glyph::Hex(_) => self.characters(),
        }
    }
}

/// The hexadecimal digit of a value under 16.
pub fn hex_digit(value: u8) -> char {
    char::from_digit(u32::from(value), 16).unwrap_or('?')
}

/// Whether a character shows on a line as itself: none that moves a terminal's cursor, begins a command of it, as U+009B
/// does, or turns the direction in which all behind it is shown.
pub fn is_seen(character: char) -> bool {
    !character.is_control()
        && !matches!(character, '\u{202a}'..='\u{202e}' | '\u{2066}'..='\u{2069}')
}

/// What stands behind the backslash, where a character has one before it.
fn mark_of(character: char, spelling: Spelling) -> Option<char> {
    match (character, spelling) {
        ('\n', _) => Some('n'),
        ('\r', _) => Some('r'),
        ('\t', _) => Some('t'),
        ('\\' | '|', Spelling::Row) => Some(character),
        _ => None,
    }
}

/// Appends bytes, each by itself, and tells whether there was memory.
fn push_bytes(glyphs: &mut Vec<Glyph>, bytes: &[u8]) -> bool {
    let mut is_whole = true;
    for byte in bytes {
        is_whole = glyphs.push(Glyph::Hex(*byte)).is_ok() && is_whole;
    }
    is_whole
}

/// Appends a character, and tells whether there was memory.
fn push_character(glyphs: &mut Vec<Glyph>, character: char, spelling: Spelling) -> bool {
    if let Some(mark) = mark_of(character, spelling) {
        return glyphs.push(Glyph::Marked(mark)).is_ok();
    }
    if !is_seen(character) {
        return push_bytes(glyphs, character.encode_utf8(&mut [0; 4]).as_bytes());
    }
    glyphs.push(Glyph::Plain(character)).is_ok()
}

/// Appends the glyphs of bytes, and tells whether there was memory.
pub fn push_glyphs(glyphs: &mut Vec<Glyph>, bytes: &[u8], spelling: Spelling) -> bool {
    let mut is_whole = true;
    for chunk in bytes.utf8_chunks() {
        for character in chunk.valid().chars() {
            is_whole = push_character(glyphs, character, spelling) && is_whole;
        }
        is_whole = push_bytes(glyphs, chunk.invalid()) && is_whole;
    }
    is_whole
}
