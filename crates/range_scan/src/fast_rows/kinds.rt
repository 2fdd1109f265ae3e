//! As what the rows of a file are tried.
ghost use Rattle.std.specs.Prelude.{◌≡◌, false, true, All, IfSome, IsTrue};
ghost use Rattle.std.specs.List.{list_any};
ghost use Rattle.column_store.specs.RowsOfColumns.{HasNoTexts};
ghost use Rattle.range_scan.specs.declared.context.Context.{Context};
ghost use Rattle.value_types.specs.declared.types.ColumnType.TheVariants.{Bigint};
ghost use Rattle.reject_book.specs.Casting.{null_texts};
ghost use Rattle.range_scan.specs.FastRows.{HoldsPlain, IsKindOf, begins_plain, has_byte, is_plain_in};

use crate::context::Context;
use value_types::{ColumnType, Names, Types, is_plain};

/// As what a row is tried by one look at its bytes.
#[derive(Clone, Copy)]
pub enum FastRows {
    /// Not at all.
    Never,
    /// As one of numbers alone, most of them plain, some between quotes or empty: such a row is ASCII.
    Numbers,
    /// As one of plain values and empty fields: such a row is ASCII.
    Values,
    /// As one of plain values, texts and empty fields.
    Texts,
}

/// Whether a byte may stand in a plain value of one of the types.
fn is_plain_in(types: &Types, byte: u8) -> bool
    ensures { result ≡ is_plain_in types.now byte }
{
    for column in 0..types.len() {
        if is_plain(types.get(column), byte) {
            return true;
        }
    }
    false
}

/// Whether there is a byte, and it may stand in a plain value of one of the types.
fn is_plain_mark(types: &Types, mark: Option<u8>) -> bool
    ensures { result ≡ false → IfSome mark (λ b. is_plain_in types.now b ≡ false) }
{
    match mark {
        Some(byte) => is_plain_in(types, byte),
        None => false,
    }
}

/// Whether a text begins with a byte that may stand in a plain value of one of the types.
fn is_plain_front(types: &Types, text: &[u8]) -> bool
    ensures { result ≡ begins_plain (is_plain_in types.now) text.now }
{
    if text.is_empty() {
        return false;
    }
    is_plain_in(types, text[0])
}

/// Whether one of some texts begins with such a byte.
fn has_plain_front(types: &Types, texts: &Names) -> bool
    ensures { result ≡ list_any (begins_plain (is_plain_in types.now)) texts.now }
{
    for number in 0..texts.len() {
        if is_plain_front(types, texts.get(number)) {
            return true;
        }
    }
    false
}

/// Whether a byte stands in a text.
fn has_byte(text: &[u8], byte: u8) -> bool
    ensures { result ≡ has_byte byte text.now }
{
    for place in 0..text.len() {
        if text[place] == byte {
            return true;
        }
    }
    false
}

/// Whether a byte stands in one of some texts.
fn have_byte(texts: &Names, byte: u8) -> bool
    ensures { result ≡ list_any (has_byte byte) texts.now }
{
    for number in 0..texts.len() {
        if has_byte(texts.get(number), byte) {
            return true;
        }
    }
    false
}

/// Whether all columns are BIGINT.
fn all_bigint(types: &Types) -> bool
    ensures { IsTrue result → All (λ ty. ty ≡ Bigint) types.now }
{
    for column in 0..types.len() {
        if types.get(column) != ColumnType::Bigint {
            return false;
        }
    }
    true
}

/// Whether no column holds texts.
fn has_no_texts(types: &Types) -> bool
    ensures { result ≡ true → HasNoTexts types.now }
{
    for column in 0..types.len() {
        if types.get(column) == ColumnType::Varchar {
            return false;
        }
    }
    true
}

/// Whether rows are tried at all: there are columns, and no byte of a plain value of theirs is the delimiter, can open quotes
/// or a comment, or begins a text that stands for null.
fn holds_plain(context: &Context) -> bool
    ensures { result ≡ true → HoldsPlain context.now }
{
    let dialect = &context.dialect;
    let types = &context.schema.types;
    if is_plain_in(types, dialect.delim())
        || is_plain_mark(types, dialect.quote())
        || is_plain_mark(types, dialect.comment())
        || is_plain_front(types, context.schema.nullstr.as_slice())
        || has_plain_front(types, &context.schema.nulls)
    {
        return false;
    }
    types.len() > 0
}

/// Whether no quote stands in a text that stands for null, so that no text with a quote inside is null.
fn holds_quotes(context: &Context) -> bool
    ensures { result ≡ true → IfSome context.now.dialect.quote (λ q. list_any (has_byte q) (null_texts context.now.schema) ≡ false) }
{
    let schema = &context.schema;
    match context.dialect.quote() {
        Some(quote) => {
            !has_byte(schema.nullstr.as_slice(), quote) && !have_byte(&schema.nulls, quote)
        }
        None => true,
    }
}

impl FastRows {
    /// As what the rows of a file are tried.
    pub fn of(context: &Context) -> FastRows
        ensures { IsKindOf context.now result }
    {
        if !holds_plain(context) || !holds_quotes(context) {
            return FastRows::Never;
        }
        let types = &context.schema.types;
        if all_bigint(types) {
            return FastRows::Numbers;
        }
        if has_no_texts(types) {
            FastRows::Values
        } else {
            FastRows::Texts
        }
    }

    /// Whether a row that is found so is ASCII, so that nobody has to look whether it is UTF-8.
    pub fn is_ascii(self) -> bool
        ensures { (context : Context) → result ≡ true → IsKindOf context self → HasNoTexts context.schema.types }
    {
        matches!(self, FastRows::Numbers | FastRows::Values)
    }
}
