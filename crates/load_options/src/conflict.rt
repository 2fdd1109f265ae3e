//! Why options cannot stand together.
ghost use Rattle.std.specs.Prelude.{◌≡◌, ◌+◌, ◌^◌, ◌<◌, length, map, string_bytes};
ghost use Rattle.load_options.specs.Conflicts.{options_in, place_of};

use crate::given::given_at;

/// Options that can't stand together, or one that can't stand without another or with the command.
#[derive(Clone, Copy)]
pub enum Conflict {
    /// A bound on the stored rejects, where none are stored.
    LimitsNoRejects,
    /// All columns VARCHAR, beside types of all.
    VarcharAndTypes,
    /// Names and types of different numbers.
    CountsDiffer,
    /// One byte as delimiter and quote.
    DelimIsQuote,
    /// One byte as delimiter and escape.
    DelimIsEscape,
    /// An escape where there is no quote.
    EscapeWithoutQuote,
    /// One byte as comment byte and delimiter.
    CommentIsDelim,
    /// One byte as comment byte and quote.
    CommentIsQuote,
    /// One byte as comment byte and escape.
    CommentIsEscape,
    /// An escape where neither of the quotes that would be tried is left.
    LeavesNoQuote,
    /// A table's name where no database is written.
    NamesNoTable,
    /// A format that the command doesn't write.
    WritesOther,
    /// Types of single columns, beside types of all.
    TypesTwice,
    /// All columns VARCHAR, beside types of single ones.
    VarcharAndColumnTypes,
    /// Several texts for null, beside the one text.
    NullsTwice,
    /// A bound on faults where the first one ends the reading.
    BoundsNone,
    /// Headers that must be the same, where the names are given.
    NamesNoHeader,
    /// Headers that must be the same, where there is none.
    ComparesNoHeader,
    /// A file to be split, without a size.
    LacksSize,
}

/// The conflicts in the order in which words are refused for them.
pub const CONFLICTS: [Conflict; 19] = [
    Conflict::LimitsNoRejects,
    Conflict::VarcharAndTypes,
    Conflict::CountsDiffer,
    Conflict::DelimIsQuote,
    Conflict::DelimIsEscape,
    Conflict::EscapeWithoutQuote,
    Conflict::CommentIsDelim,
    Conflict::CommentIsQuote,
    Conflict::CommentIsEscape,
    Conflict::LeavesNoQuote,
    Conflict::NamesNoTable,
    Conflict::WritesOther,
    Conflict::TypesTwice,
    Conflict::VarcharAndColumnTypes,
    Conflict::NullsTwice,
    Conflict::BoundsNone,
    Conflict::NamesNoHeader,
    Conflict::ComparesNoHeader,
    Conflict::LacksSize,
];

/// The place of the word that names the file.
const FILE_PLACE: usize = 1;

impl Conflict {
    /// The two options; one of them twice where it can't stand without another or with the command.
    pub fn options(self) -> (&'static str, &'static str)
        ensures { (result.0.now, result.1.now) ≡ options_in self }
    {
        match self {
            Conflict::LimitsNoRejects => ("rejects_limit", "rejects_limit"),
            Conflict::VarcharAndTypes => ("all_varchar", "types"),
            Conflict::CountsDiffer => ("names", "types"),
            Conflict::DelimIsQuote => ("delim", "quote"),
            Conflict::DelimIsEscape => ("delim", "escape"),
            Conflict::EscapeWithoutQuote => ("escape", "quote"),
            Conflict::CommentIsDelim => ("comment", "delim"),
            Conflict::CommentIsQuote => ("comment", "quote"),
            Conflict::CommentIsEscape => ("comment", "escape"),
            Conflict::LeavesNoQuote => ("delim", "comment"),
            Conflict::NamesNoTable => ("table", "table"),
            Conflict::WritesOther => ("to", "to"),
            Conflict::TypesTwice => ("column_types", "types"),
            Conflict::VarcharAndColumnTypes => ("column_types", "all_varchar"),
            Conflict::NullsTwice => ("nulls", "nullstr"),
            Conflict::BoundsNone => ("max_errors", "max_errors"),
            Conflict::NamesNoHeader => ("same_header", "names"),
            Conflict::ComparesNoHeader => ("same_header", "header"),
            Conflict::LacksSize => ("size", "size"),
        }
    }

    /// The place of the later of the words that give the two options; that of the file where none does.
    pub fn place(self, words: &[String]) -> usize
        requires within { length words.now + 2 < 2 ^ 64 }
        ensures { result ≡ place_of (map string_bytes words.now) self }
    {
        let (one, other) = self.options();
        let first = given_at(words, one).unwrap_or(FILE_PLACE);
        first.max(given_at(words, other).unwrap_or(FILE_PLACE))
    }
}
