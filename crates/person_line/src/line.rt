// A line for a person, made of borrowed texts: a template says all of it but the parts that stand in its places.
use crate::excerpt::{MOST, push_shown};
use crate::glyphs::{Glyph, Spelling, hex_digit, push_glyphs};
use crate::shell::{folder_of, push_quoted};
use csv_source::STANDARD_INPUT;
use std::alloc::Global;

/// What stands at a place of a template.
#[derive(Clone, Copy)]
pub enum Part<'a> {
    /// A text as it is.
    Text(&'a str),
    Number(u64),
    /// A word as a terminal shows it, cut where it is long.
    Word(&'a str),
    /// The same of bytes.
    Bytes(&'a [u8]),
    /// A file's name as a terminal shows it, which is never cut.
    Name(&'a str),
    /// The same between quotes, or standard input.
    Subject(&'a str),
    /// A word as a shell takes it.
    Shell(&'a str),
    /// A file's name as a shell takes it, and no program for an option.
    File(&'a str),
}

/// A line that grows. It isn't whole where memory was wanting, or a shell's word can't be copied from it; then nothing of
/// it is said.
#[derive(Drop)]
pub struct Line {
    alloc: Global,
    text: String,
    is_whole: bool,
}

impl Line {
    /// A line of which nothing is there yet.
    pub fn new(alloc: Global) -> Line {
        Line {
            alloc,
            text: String::new(alloc),
            is_whole: true,
        }
    }

    /// What memory is taken from.
    pub fn alloc(&self) -> Global {
        self.alloc
    }

    /// What is there.
    pub fn text(&self) -> &str {
        self.text.as_str()
    }

    /// Whether all of it is there.
    pub fn is_whole(&self) -> bool {
        self.is_whole
    }

    /// Whether it is whole and not long.
    pub fn is_short(&self) -> bool {
        self.is_whole && self.text().chars().count() <= MOST
    }

    /// That it can't be whole.
    pub fn give_up(&mut self) {
        self.is_whole = false;
    }

    /// A text.
    pub fn push(&mut self, text: &str) {
        if self.text.push_str(text).is_err() {
            self.give_up();
        }
    }

    /// Begins another line, where there is one already.
    pub fn next_line(&mut self) {
        if !self.text.is_empty() {
            self.push("\ncsvload: ");
        }
    }

    /// A character.
    pub fn push_char(&mut self, character: char) {
        if self.text.push(character).is_err() {
            self.give_up();
        }
    }

    /// A template with its parts, one at each `{}`.
    pub fn say(&mut self, template: &str, parts: &[Part<'_>]) {
        let mut rest = template;
        for part in parts {
            if let Some((before, behind)) = rest.split_once("{}") {
                self.push(before);
                self.part(*part);
                rest = behind;
            }
        }
        self.push(rest);
    }

    /// The same as one word that a shell takes.
    pub fn quoted(&mut self, template: &str, parts: &[Part<'_>]) {
        let mut word = Line::new(self.alloc);
        word.say(template, parts);
        self.quote(&word);
    }

    /// Another line as one word that a shell takes.
    pub fn quote(&mut self, word: &Line) {
        if !word.is_whole {
            self.give_up();
        }
        push_quoted(self, "", word.text());
    }

    /// A part.
    fn part(&mut self, part: Part<'_>) {
        match part {
            Part::Text(text) => self.push(text),
            Part::Number(number) => self.number(number),
            Part::Word(word) => push_shown(self, word.as_bytes(), MOST),
            Part::Bytes(bytes) => push_shown(self, bytes, MOST),
            Part::Name(name) => push_shown(self, name.as_bytes(), usize::MAX),
            Part::Subject(name) if name == STANDARD_INPUT => self.push("standard input"),
            Part::Subject(name) => {
                self.push("'");
                push_shown(self, name.as_bytes(), usize::MAX);
                self.push("'");
            }
            Part::Shell(word) => push_quoted(self, "", word),
            Part::File(name) => push_quoted(self, folder_of(name), name),
        }
    }

    /// A number in digits.
    fn number(&mut self, number: u64) {
        if write!(self.text, "{number}").is_err() {
            self.give_up();
        }
    }

    /// The glyphs of bytes, not all of them where memory is wanting.
    pub fn glyphs_of(&mut self, bytes: &[u8], spelling: Spelling) -> Vec<Glyph> {
        let mut glyphs = Vec::new(self.alloc);
        if !push_glyphs(&mut glyphs, bytes, spelling) {
            self.give_up();
        }
        glyphs
    }

    /// Glyphs.
    pub fn glyphs(&mut self, glyphs: &[Glyph]) {
        for glyph in glyphs {
            self.glyph(*glyph);
        }
    }

    /// A glyph.
    fn glyph(&mut self, glyph: Glyph) {
        match glyph {
            Glyph::Plain(character) => self.push_char(character),
            Glyph::Marked(character) => {
                self.push("\\");
                self.push_char(character);
            }
            Glyph::Hex(byte) => {
                self.push("\\x");
                self.push_char(hex_digit(byte / 16));
                self.push_char(hex_digit(byte % 16));
            }
        }
    }
}
