// The part of a row around its fault, with a caret under the fault.
ghost use Rattle.std.specs.Prelude.{◌≤◌, length};

use crate::glyphs::{Glyph, Spelling};
use crate::line::Line;

/// How many characters of a row, or of a value, are shown.
pub const MOST: usize = 60;

/// How many of them may stand before the fault.
const MOST_BEFORE: usize = 30;

/// What stands before a row and before its caret.
const INDENT: &str = "    ";

/// What stands for the rest of a text that is cut.
const CUT: &str = "..";

/// How many glyphs from the front show at most so many characters.
fn front_within(glyphs: &[Glyph], most: usize) -> usize
    ensures within { result ≤ length glyphs.now }
{
    let mut shown = 0usize;
    for (count, glyph) in glyphs.iter().enumerate() {
        shown = shown.saturating_add(glyph.characters());
        if shown > most {
            return count;
        }
    }
    glyphs.len()
}

/// The last glyphs, as many as show at most so many characters.
fn back_within(glyphs: &[Glyph], most: usize) -> &[Glyph] {
    let mut shown = characters_of(glyphs);
    for (place, glyph) in glyphs.iter().enumerate() {
        if shown <= most {
            return &glyphs[place..];
        }
        shown = shown.saturating_sub(glyph.characters());
    }
    &[]
}

/// The place of the glyph in which a byte lies, or that behind the last one.
fn place_of_byte(glyphs: &[Glyph], byte: u64) -> usize
    ensures within { result ≤ length glyphs.now }
{
    let mut passed = 0u64;
    for (place, glyph) in glyphs.iter().enumerate() {
        passed = passed.saturating_add(glyph.bytes() as u64);
        if passed > byte {
            return place;
        }
    }
    glyphs.len()
}

/// How many columns of a terminal glyphs take.
fn columns_of(glyphs: &[Glyph]) -> usize {
    let mut columns = 0usize;
    for glyph in glyphs {
        columns = columns.saturating_add(glyph.columns());
    }
    columns
}

/// How many characters show glyphs.
fn characters_of(glyphs: &[Glyph]) -> usize {
    let mut characters = 0usize;
    for glyph in glyphs {
        characters = characters.saturating_add(glyph.characters());
    }
    characters
}

/// The part of a row around one of its bytes, counted from 0, and below it the caret.
pub fn push_excerpt(said: &mut Line, row: &[u8], byte: u64) {
    let glyphs = said.glyphs_of(row, Spelling::Row);
    let (before, behind) = glyphs.split_at(place_of_byte(&glyphs, byte));
    let before = back_within(before, MOST_BEFORE);
    let left = MOST.saturating_sub(characters_of(before));
    said.push(INDENT);
    said.glyphs(before);
    said.glyphs(&behind[..front_within(behind, left)]);
    said.push("\n");
    said.push(INDENT);
    for _ in 0..columns_of(before) {
        said.push(" ");
    }
    said.push("^");
}

/// A text as a terminal shows it, cut where that takes more than so many characters.
pub fn push_shown(said: &mut Line, text: &[u8], most: usize) {
    let glyphs = said.glyphs_of(text, Spelling::Word);
    let end = front_within(&glyphs, most);
    said.glyphs(&glyphs[..end]);
    if end < glyphs.len() {
        said.push(CUT);
    }
}
