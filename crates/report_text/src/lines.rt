// Lines of parts.
ghost use Rattle.std.specs.Prelude.{◌≡◌, ◌++◌, ◌∷◌, [], codes, map, OnOk};
ghost use Rattle.std.specs.Fmt.{decimal};
ghost use Rattle.std.specs.Option.{option_map_or};
ghost use Rattle.csv_source.specs.Line.{line_of};
ghost use Rattle.report_text.specs.Part.{front_of, part_text};
ghost use Rattle.report_text.specs.Lines.{errors_line, rows_line, stats_line};

use crate::Stats;
use crate::shown::{push_shown, push_shown_option};
use csv_source::NoMemory;
use text_pieces::Draft;

/// A part of a line.
#[derive(Clone, Copy)]
pub(crate) enum Part<'a> {
    /// Bytes as they are.
    Plain(&'a [u8]),
    Shown(&'a [u8]),
    Number(u64),
    /// A byte as it is shown, where there is one.
    Mark(Option<u8>),
    /// A name before one of those.
    NamedPlain(&'a [u8], &'a [u8]),
    NamedNumber(&'a [u8], u64),
    NamedMark(&'a [u8], Option<u8>),
}

/// Appends a number.
pub(crate) fn push_number(into: &mut Draft, number: u64) -> Result<(), NoMemory>
    ensures { OnOk result (into.new.text ≡ into.old.text ++ decimal number) }
{
    into.append(itoa::Buffer::new().format(number).as_bytes())
}

/// Appends bytes as they are.
pub(crate) fn push_plain(into: &mut Draft, bytes: &[u8]) -> Result<(), NoMemory>
    ensures { OnOk result (into.new.text ≡ into.old.text ++ bytes.now) }
{
    into.append(bytes)
}

/// Appends a part.
fn push_part(into: &mut Draft, part: Part<'_>) -> Result<(), NoMemory>
    ensures { OnOk result (into.new.text ≡ into.old.text ++ part_text part.entry) }
{
    match part {
        Part::Plain(bytes) => push_plain(into, bytes),
        Part::Shown(bytes) => push_shown(into, bytes),
        Part::Number(number) => push_number(into, number),
        Part::Mark(byte) => push_shown_option(into, byte),
        Part::NamedPlain(name, bytes) => {
            push_plain(into, name)?;
            push_plain(into, bytes)
        }
        Part::NamedNumber(name, number) => {
            push_plain(into, name)?;
            push_number(into, number)
        }
        Part::NamedMark(name, byte) => {
            push_plain(into, name)?;
            push_shown_option(into, byte)
        }
    }
}

/// Appends the front of a line: its name, and the parts with a bar before each.
pub(crate) fn push_front(into: &mut Draft, name: &[u8], parts: &[Part<'_>]) -> Result<(), NoMemory>
    ensures { OnOk result (into.new.text ≡ into.old.text ++ front_of (name.now ∷ map part_text parts.now)) }
{
    into.append(name)?;
    for part in parts {
        into.push(b'|')?;
        push_part(into, *part)?;
    }
    Ok(())
}

/// Appends a line: its name, the parts with a bar before each, and LF. The parts stand on the caller's stack, so that a
/// call reads as its definition does, and no line takes memory of its own.
pub(crate) fn push_line(into: &mut Draft, name: &[u8], parts: &[Part<'_>]) -> Result<(), NoMemory>
    ensures { OnOk result (into.new.text ≡ into.old.text ++ line_of (name.now ∷ map part_text parts.now)) }
{
    push_front(into, name, parts)?;
    into.push(b'\n')
}

/// Appends the line of how many rows there are.
pub(crate) fn push_row_count(into: &mut Draft, rows: usize) -> Result<(), NoMemory>
    ensures { OnOk result (into.new.text ≡ into.old.text ++ rows_line rows) }
{
    push_line(into, b"rows", &[Part::Number(rows as u64)])
}

/// Appends the line of how many rejects are printed, and how many came.
pub(crate) fn push_errors(into: &mut Draft, stored: u64, all: u64) -> Result<(), NoMemory>
    ensures { OnOk result (into.new.text ≡ into.old.text ++ errors_line stored all) }
{
    push_line(into, b"errors", &[Part::Number(stored), Part::Number(all)])
}

/// Appends the line of the stats.
fn push_stats(into: &mut Draft, stats: &Stats) -> Result<(), NoMemory>
    ensures { OnOk result (into.new.text ≡ into.old.text ++ stats_line stats.now) }
{
    push_line(
        into,
        b"stats",
        &[
            Part::NamedNumber(b"ranges=", stats.ranges),
            Part::NamedNumber(b"rescans=", stats.rescans),
            Part::NamedNumber(b"scanned=", stats.scanned),
        ],
    )
}

/// Appends the line of the stats, where there are some.
pub(crate) fn push_stats_of(into: &mut Draft, stats: &Option<Stats>) -> Result<(), NoMemory>
    ensures { OnOk result (into.new.text ≡ into.old.text ++ option_map_or stats_line stats.now []) }
{
    match stats {
        Some(stats) => push_stats(into, stats),
        None => Ok(()),
    }
}
