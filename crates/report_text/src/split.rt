// The lines of a file's parts.
ghost use Rattle.std.specs.Prelude.{◌≡◌, ◌++◌, length, flat_map, OnOk};
ghost use Rattle.part_cuts.specs.Part.{parts};
ghost use Rattle.report_text.specs.SplitLines.{cut_lines, further_word, head_line, head_lines, part_line, part_lines_from, part_words_line, parts_line, split_lines};

use crate::explained::push_words_with;
use crate::lines::{Part, push_line};
use crate::shown::push_shown;
use csv_sniffer::Sniffed;
use csv_source::NoMemory;
use part_cuts::{Cuts, Part as FilePart, Tally};
use std::alloc::Global;
use text_pieces::Draft;
use value_types::Names;

/// Appends further words, with a bar before each.
fn push_further_words(into: &mut Draft, words: &Names) -> Result<(), NoMemory>
    ensures { OnOk result (into.new.text ≡ into.old.text ++ flat_map further_word words.now) }
{
    for place in 0..words.len() {
        into.push(b'|')?;
        push_shown(into, words.get(place))?;
    }
    Ok(())
}

/// Appends the line of the words of each part.
fn push_part_words(
    into: &mut Draft,
    alloc: Global,
    sniffed: &Sniffed,
    further: &Names,
) -> Result<(), NoMemory>
    ensures { OnOk result (into.new.text ≡ into.old.text ++ part_words_line sniffed.now further.now) }
{
    push_words_with(into, alloc, sniffed)?;
    push_further_words(into, further)?;
    into.push(b'\n')
}

/// Appends the line of the head, which lies before the first part.
fn push_head(into: &mut Draft, first: &FilePart) -> Result<(), NoMemory>
    ensures { OnOk result (into.new.text ≡ into.old.text ++ head_line first.now) }
{
    let lines = first.line.saturating_sub(1);
    push_line(
        into,
        b"head",
        &[Part::Number(first.byte), Part::Number(lines)],
    )
}

/// Appends the line of the head, where there is a part.
fn push_head_of(into: &mut Draft, cuts: &Cuts) -> Result<(), NoMemory>
    ensures { OnOk result (into.new.text ≡ into.old.text ++ head_lines (parts cuts.now.starts cuts.now.tally)) }
{
    if cuts.count() == 0 {
        return Ok(());
    }
    push_head(into, &cuts.part(0))
}

/// Appends the line of a part.
fn push_part(into: &mut Draft, number: u64, part: &FilePart) -> Result<(), NoMemory>
    ensures { OnOk result (into.new.text ≡ into.old.text ++ part_line number part.now) }
{
    push_line(
        into,
        b"part",
        &[
            Part::Number(number),
            Part::Number(part.byte),
            Part::Number(part.len),
            Part::Number(part.line),
            Part::Number(part.rows),
        ],
    )
}

/// Appends the line of each part.
fn push_parts(into: &mut Draft, cuts: &Cuts) -> Result<(), NoMemory>
    ensures { OnOk result (into.new.text ≡ into.old.text ++ part_lines_from 0 (parts cuts.now.starts cuts.now.tally)) }
{
    for number in 0..cuts.count() {
        push_part(into, number as u64, &cuts.part(number))?;
    }
    Ok(())
}

/// Appends the line of how many parts there are, and of what lies before the file's end.
fn push_part_count(into: &mut Draft, count: usize, end: &Tally) -> Result<(), NoMemory>
    ensures { OnOk result (into.new.text ≡ into.old.text ++ parts_line count end.now) }
{
    push_line(
        into,
        b"parts",
        &[
            Part::Number(count as u64),
            Part::Number(end.bytes),
            Part::Number(end.lines),
            Part::Number(end.rows),
        ],
    )
}

/// Appends where the parts of a file begin.
fn push_cuts(into: &mut Draft, cuts: &Cuts) -> Result<(), NoMemory>
    ensures { OnOk result (into.new.text ≡ into.old.text ++ cut_lines cuts.now) }
{
    push_head_of(into, cuts)?;
    push_parts(into, cuts)?;
    push_part_count(into, cuts.count(), &cuts.tally())
}

/// Appends the words of each part of a file, and where the parts begin.
pub(crate) fn push_split(
    into: &mut Draft,
    alloc: Global,
    sniffed: &Sniffed,
    further: &Names,
    cuts: &Cuts,
) -> Result<(), NoMemory>
    ensures { OnOk result (into.new.text ≡ into.old.text ++ split_lines sniffed.now further.now cuts.now) }
{
    push_part_words(into, alloc, sniffed, further)?;
    push_cuts(into, cuts)
}
