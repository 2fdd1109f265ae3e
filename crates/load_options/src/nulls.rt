//! Words that give the texts that stand for null.
ghost use Rattle.std.specs.Prelude.{◌≡◌, ◌∷◌, [], IfOk, drop, map, string_bytes};
ghost use Rattle.load_options.specs.Nulls.{is_null_list, null_texts};
ghost use Rattle.load_options.specs.Reasons.{Explains, SaysOfNames};
ghost use Rattle.load_options.specs.Texts.{pieces_at, word_at};

use crate::given::given;
use crate::limits::NULLS_LIMIT;
use crate::lists::{pieces_of, twice_at};
use crate::reason::Reason;
use csv_source::NoMemory;
use std::alloc::Global;
use value_types::Names;

/// Why a text is no list of texts for null. The empty text alone is none: that is what `nullstr` gives.
pub fn nulls_reason(alloc: Global, text: &[u8]) -> Result<Option<Reason>, NoMemory>
    ensures { IfOk result (λ reason. Explains reason (is_null_list text.now) (SaysOfNames (pieces_at 44 text.now))) }
{
    if text.is_empty() {
        return Ok(Some(Reason::Other));
    }
    let texts = pieces_of(alloc, text)?;
    if texts.len() > NULLS_LIMIT {
        return Ok(Some(Reason::TooMany(NULLS_LIMIT)));
    }
    match twice_at(alloc, &texts)? {
        Some(place) => Ok(Some(Reason::Twice(place))),
        None => Ok(None),
    }
}

/// The texts that stand for null: those of `nulls`, else the one of `nullstr`, else the empty one.
pub fn null_texts(alloc: Global, words: &[String]) -> Result<Names, NoMemory>
    ensures { IfOk result (λ texts. texts ≡ null_texts (map string_bytes words.now)) }
{
    match given(words, "nulls") {
        Some(text) => pieces_of(alloc, text),
        None => only(alloc, given(words, "nullstr").unwrap_or(b"")),
    }
}

/// The list of one text.
fn only(alloc: Global, text: &[u8]) -> Result<Names, NoMemory>
    ensures { IfOk result (λ texts. texts ≡ text.now ∷ []) }
{
    let mut texts = Names::new(alloc);
    texts.push(text)?;
    Ok(texts)
}

/// The first of some texts, empty where there is none.
pub fn first_text(texts: &Names) -> &[u8]
    ensures { result.now ≡ word_at texts.now 0 }
{
    if texts.len() == 0 {
        b"".as_slice()
    } else {
        texts.get(0)
    }
}

/// The texts behind the first.
pub fn other_texts(alloc: Global, texts: &Names) -> Result<Names, NoMemory>
    ensures { IfOk result (λ others. others ≡ drop 1 texts.now) }
{
    let mut others = Names::new(alloc);
    for at in 1..texts.len() {
        others.push(texts.get(at))?;
    }
    Ok(others)
}
