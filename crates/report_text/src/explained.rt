// The lines of an explanation.
ghost use Rattle.std.specs.Prelude.{◌≡◌, ◌++◌, false, true, flat_map, IfOk, OnOk};
ghost use Rattle.report_text.specs.ExplainedLines.{candidate_line, explanation_lines, fixing_words, further_type, hint_line, hint_text, type_names, varchar_word, why_line, words_line};
ghost use Rattle.report_text.specs.Part.{front_of};

use crate::found::truth_text;
use crate::lines::{Part, push_front, push_line, push_plain};
use crate::shown::{push_shown, push_shown_option};
use csv_sniffer::{Explanation, Hint, Sniffed, Why};
use csv_source::{Bytes, NoMemory};
use dialect_rank::Scored;
use std::alloc::Global;
use text_pieces::Draft;
use value_types::{ColumnType, type_name};

/// Appends the line of a candidate.
fn push_candidate(into: &mut Draft, candidate: &Scored) -> Result<(), NoMemory>
    ensures { OnOk result (into.new.text ≡ into.old.text ++ candidate_line candidate.now) }
{
    push_line(
        into,
        b"candidate",
        &[
            Part::Number(candidate.place as u64),
            Part::Mark(Some(candidate.dialect.delim())),
            Part::Mark(candidate.dialect.quote()),
            Part::Mark(candidate.dialect.escape()),
            Part::Number(candidate.score.rows),
            Part::Number(candidate.score.mode),
            Part::Number(candidate.score.agree),
            Part::Number(candidate.score.closed),
            Part::Number(candidate.score.flawed),
        ],
    )
}

/// Appends the line of each candidate.
fn push_candidates(into: &mut Draft, candidates: &[Scored]) -> Result<(), NoMemory>
    ensures { OnOk result (into.new.text ≡ into.old.text ++ flat_map candidate_line candidates.now) }
{
    for candidate in candidates {
        push_candidate(into, candidate)?;
    }
    Ok(())
}

/// Appends the names of types, with a comma before each.
fn push_further_types(into: &mut Draft, types: &[ColumnType]) -> Result<(), NoMemory>
    ensures { OnOk result (into.new.text ≡ into.old.text ++ flat_map further_type types.now) }
{
    for ty in types {
        into.push(b',')?;
        push_plain(into, type_name(*ty).as_bytes())?;
    }
    Ok(())
}

/// Appends the names of types, with commas between.
fn push_type_names(into: &mut Draft, types: &[ColumnType]) -> Result<(), NoMemory>
    ensures { OnOk result (into.new.text ≡ into.old.text ++ type_names types.now) }
{
    match types {
        [] => Ok(()),
        [first, rest @ ..] => {
            push_plain(into, type_name(*first).as_bytes())?;
            push_further_types(into, rest)
        }
    }
}

/// Appends the words that fix the dialect and the header.
fn push_words_alone(into: &mut Draft, sniffed: &Sniffed) -> Result<(), NoMemory>
    ensures { OnOk result (into.new.text ≡ into.old.text ++ words_line false sniffed.now) }
{
    push_line(
        into,
        b"words",
        &[
            Part::NamedMark(b"delim=", Some(sniffed.dialect.delim())),
            Part::NamedMark(b"quote=", sniffed.dialect.quote()),
            Part::NamedMark(b"escape=", sniffed.dialect.escape()),
            Part::NamedPlain(b"header=", truth_text(sniffed.header)),
        ],
    )
}

/// Appends the words that fix the dialect, the header and the types, whose names are given; no LF.
fn push_words_named(into: &mut Draft, sniffed: &Sniffed, types: &[u8]) -> Result<(), NoMemory>
    requires named { types.now ≡ type_names sniffed.now.types }
    ensures { OnOk result (into.new.text ≡ into.old.text ++ front_of (fixing_words true sniffed.now)) }
{
    push_front(
        into,
        b"words",
        &[
            Part::NamedMark(b"delim=", Some(sniffed.dialect.delim())),
            Part::NamedMark(b"quote=", sniffed.dialect.quote()),
            Part::NamedMark(b"escape=", sniffed.dialect.escape()),
            Part::NamedPlain(b"header=", truth_text(sniffed.header)),
            Part::NamedPlain(b"types=", types),
        ],
    )
}

/// The names of types, with commas between.
fn type_names(alloc: Global, types: &[ColumnType]) -> Result<Bytes, NoMemory>
    ensures { IfOk result (λ names. names ≡ type_names types.now) }
{
    let mut names = Draft::new(alloc);
    push_type_names(&mut names, types)?;
    Ok(Bytes::from_vec(names.into_text()))
}

/// Appends the words that fix the dialect, the header and the types; no LF.
pub(crate) fn push_words_with(
    into: &mut Draft,
    alloc: Global,
    sniffed: &Sniffed,
) -> Result<(), NoMemory>
    ensures { OnOk result (into.new.text ≡ into.old.text ++ front_of (fixing_words true sniffed.now)) }
{
    let types = type_names(alloc, sniffed.types.as_slice())?;
    push_words_named(into, sniffed, types.as_slice())
}

/// Appends the words that fix what was found.
fn push_words(
    into: &mut Draft,
    alloc: Global,
    fixes_types: bool,
    sniffed: &Sniffed,
) -> Result<(), NoMemory>
    ensures { OnOk result (into.new.text ≡ into.old.text ++ words_line fixes_types sniffed.now) }
{
    if !fixes_types {
        return push_words_alone(into, sniffed);
    }
    push_words_with(into, alloc, sniffed)?;
    into.push(b'\n')
}

/// Appends the line of a reason.
fn push_why(into: &mut Draft, why: &Why) -> Result<(), NoMemory>
    ensures { OnOk result (into.new.text ≡ into.old.text ++ why_line why.now) }
{
    push_line(
        into,
        b"why",
        &[
            Part::Number(why.column as u64),
            Part::Plain(type_name(why.ty).as_bytes()),
            Part::Number(why.line),
            Part::Shown(why.value.as_slice()),
        ],
    )
}

/// Appends the line of each reason.
fn push_whys(into: &mut Draft, whys: &[Why]) -> Result<(), NoMemory>
    ensures { OnOk result (into.new.text ≡ into.old.text ++ flat_map why_line whys.now) }
{
    for why in whys {
        push_why(into, why)?;
    }
    Ok(())
}

/// Appends the word that gives a column of a name the type VARCHAR.
fn push_varchar_word(into: &mut Draft, name: &[u8]) -> Result<(), NoMemory>
    ensures { OnOk result (into.new.text ≡ into.old.text ++ varchar_word name.now) }
{
    push_plain(into, b"column_types=")?;
    push_shown(into, name)?;
    push_plain(into, b":VARCHAR")
}

/// Appends the word of a hint.
fn push_hint_text(into: &mut Draft, hint: &Hint) -> Result<(), NoMemory>
    ensures { OnOk result (into.new.text ≡ into.old.text ++ hint_text hint.now) }
{
    match hint {
        Hint::Delim(delim) => {
            push_plain(into, b"delim=")?;
            push_shown_option(into, Some(*delim))
        }
        Hint::Comment => push_plain(into, b"comment=#"),
        Hint::Skip => push_plain(into, b"skip=1"),
        Hint::Quote => push_plain(into, b"quote="),
        Hint::Varchar(name) => push_varchar_word(into, name.as_slice()),
        Hint::NullText(text) => {
            push_plain(into, b"nulls=,")?;
            push_shown(into, text.as_slice())
        }
    }
}

/// Appends the line of a hint.
fn push_hint(into: &mut Draft, hint: &Hint) -> Result<(), NoMemory>
    ensures { OnOk result (into.new.text ≡ into.old.text ++ hint_line hint.now) }
{
    push_plain(into, b"hint|")?;
    push_hint_text(into, hint)?;
    push_plain(into, b"\n")
}

/// Appends the line of each hint.
fn push_hints(into: &mut Draft, hints: &[Hint]) -> Result<(), NoMemory>
    ensures { OnOk result (into.new.text ≡ into.old.text ++ flat_map hint_line hints.now) }
{
    for hint in hints {
        push_hint(into, hint)?;
    }
    Ok(())
}

/// Appends why a file was found to be as it is.
pub(crate) fn push_explanation(
    into: &mut Draft,
    alloc: Global,
    sniffed: &Sniffed,
    explanation: &Explanation,
) -> Result<(), NoMemory>
    ensures { OnOk result (into.new.text ≡ into.old.text ++ explanation_lines sniffed.now explanation.now) }
{
    push_candidates(into, explanation.candidates())?;
    push_words(into, alloc, explanation.fixes_types(), sniffed)?;
    push_whys(into, explanation.whys())?;
    push_hints(into, explanation.hints())
}
