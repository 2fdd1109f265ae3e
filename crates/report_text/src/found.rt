// The lines of what was found.
ghost use Rattle.std.specs.Prelude.{◌≡◌, ◌++◌, length, OnOk};
ghost use Rattle.value_types.specs.ValueText.{truth_text};
ghost use Rattle.report_text.specs.Lines.{column_line, column_lines, newline_text, options_line};
ghost use Rattle.report_text.specs.Report.{found_lines};

use crate::lines::{Part, push_line};
use csv_sniffer::{Newline, Sniffed};
use csv_source::NoMemory;
use text_pieces::Draft;
use value_types::{ColumnType, type_name};

/// The text of a line end.
pub(crate) fn newline_text(newline: Newline) -> &'static [u8]
    ensures { result.now ≡ newline_text newline }
{
    match newline {
        Newline::Lf => b"\\n",
        Newline::Cr => b"\\r",
        Newline::CrLf => b"\\r\\n",
        Newline::Mixed => b"mixed",
        Newline::None => b"none",
    }
}

/// The text of a truth value.
pub(crate) fn truth_text(truth: bool) -> &'static [u8]
    ensures { result.now ≡ truth_text truth }
{
    match truth {
        true => b"true",
        false => b"false",
    }
}

/// Appends the line of the options.
fn push_options(into: &mut Draft, sniffed: &Sniffed) -> Result<(), NoMemory>
    ensures { OnOk result (into.new.text ≡ into.old.text ++ options_line sniffed.now) }
{
    push_line(
        into,
        b"options",
        &[
            Part::NamedMark(b"delim=", Some(sniffed.dialect.delim())),
            Part::NamedMark(b"quote=", sniffed.dialect.quote()),
            Part::NamedMark(b"escape=", sniffed.dialect.escape()),
            Part::NamedPlain(b"newline=", newline_text(sniffed.newline)),
            Part::NamedNumber(b"skip=", sniffed.skip),
            Part::NamedPlain(b"header=", truth_text(sniffed.header)),
        ],
    )
}

/// Appends the line of a column.
fn push_column(into: &mut Draft, column: usize, ty: ColumnType, name: &[u8]) -> Result<(), NoMemory>
    ensures { OnOk result (into.new.text ≡ into.old.text ++ column_line column ty name.now) }
{
    push_line(
        into,
        b"column",
        &[
            Part::Number(column as u64),
            Part::Plain(type_name(ty).as_bytes()),
            Part::Shown(name),
        ],
    )
}

/// Appends a line for each column.
fn push_columns(into: &mut Draft, sniffed: &Sniffed) -> Result<(), NoMemory>
    requires { length sniffed.now.names ≡ length sniffed.now.types }
    ensures { OnOk result (into.new.text ≡ into.old.text ++ column_lines sniffed.now) }
{
    for column in 0..sniffed.types.len() {
        let ty = sniffed.types.get(column);
        let name = sniffed.names.get(column);
        push_column(into, column, ty, name)?;
    }
    Ok(())
}

/// Appends what was found.
pub(crate) fn push_found(into: &mut Draft, sniffed: &Sniffed) -> Result<(), NoMemory>
    requires { length sniffed.now.names ≡ length sniffed.now.types }
    ensures { OnOk result (into.new.text ≡ into.old.text ++ found_lines sniffed.now) }
{
    push_options(into, sniffed)?;
    push_columns(into, sniffed)
}
