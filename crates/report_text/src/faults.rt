// The lines of requests that weren't done.
ghost use Rattle.std.specs.Prelude.{◌≡◌, ◌++◌, OnOk};
ghost use Rattle.report_text.specs.Lines.{long_name_line, mismatch_line, no_column_line, other_header_line, read_fault_line, refused_line, rule_name, too_large_line, too_many_columns_line, too_many_faults_line};

use crate::Mismatch;
use crate::lines::{Part, push_line, push_number, push_plain};
use crate::shown::push_shown;
use csv_source::NoMemory;
use load_options::{WordFault, WordRule};
use text_pieces::Draft;

/// The name of a rule.
fn rule_name(rule: WordRule) -> &'static [u8]
    ensures { result.now ≡ rule_name rule }
{
    match rule {
        WordRule::NoCommand => b"NoCommand",
        WordRule::BadCommand => b"BadCommand",
        WordRule::NoFile => b"NoFile",
        WordRule::BadOption => b"BadOption",
        WordRule::BadValue => b"BadValue",
        WordRule::Repeated => b"Repeated",
        WordRule::Conflict => b"Conflict",
    }
}

/// Appends the line of refused words.
pub(crate) fn push_refused(into: &mut Draft, fault: &WordFault, word: &[u8]) -> Result<(), NoMemory>
    ensures { OnOk result (into.new.text ≡ into.old.text ++ refused_line fault.now word.now) }
{
    push_line(
        into,
        b"refused",
        &[
            Part::Plain(rule_name(fault.rule)),
            Part::Number(fault.index as u64),
            Part::Shown(word),
        ],
    )
}

/// Appends the line of a read fault.
pub(crate) fn push_read_fault(into: &mut Draft) -> Result<(), NoMemory>
    ensures { OnOk result (into.new.text ≡ into.old.text ++ read_fault_line) }
{
    push_plain(into, b"fault|read\n")
}

/// Appends the line of an input that is too large.
pub(crate) fn push_too_large(into: &mut Draft, limit: u64) -> Result<(), NoMemory>
    ensures { OnOk result (into.new.text ≡ into.old.text ++ too_large_line limit) }
{
    push_plain(into, b"fault|input over ")?;
    push_number(into, limit)?;
    push_plain(into, b" bytes\n")
}

/// Appends the line of a file that has more columns than these.
fn push_too_many_columns(into: &mut Draft, limit: u64) -> Result<(), NoMemory>
    ensures { OnOk result (into.new.text ≡ into.old.text ++ too_many_columns_line limit) }
{
    push_plain(into, b"fault|more than ")?;
    push_number(into, limit)?;
    push_plain(into, b" columns\n")
}

/// Appends the line of a file with a column whose name takes over so many bytes.
fn push_long_name(into: &mut Draft, column: u64, most: u64) -> Result<(), NoMemory>
    ensures { OnOk result (into.new.text ≡ into.old.text ++ long_name_line column most) }
{
    push_plain(into, b"fault|name of column ")?;
    push_number(into, column)?;
    push_plain(into, b" longer than ")?;
    push_number(into, most)?;
    push_plain(into, b" bytes\n")
}

/// Appends the line of a file without a column of that name.
fn push_no_column(into: &mut Draft, name: &[u8]) -> Result<(), NoMemory>
    ensures { OnOk result (into.new.text ≡ into.old.text ++ no_column_line name.now) }
{
    push_plain(into, b"fault|no column ")?;
    push_shown(into, name)?;
    push_plain(into, b"\n")
}

/// Appends the line of a file of that name that doesn't begin with the header of the first one.
fn push_other_header(into: &mut Draft, file: &[u8]) -> Result<(), NoMemory>
    ensures { OnOk result (into.new.text ≡ into.old.text ++ other_header_line file.now) }
{
    push_plain(into, b"fault|other header in ")?;
    push_shown(into, file)?;
    push_plain(into, b"\n")
}

/// Appends the line of words that don't fit the file.
pub(crate) fn push_mismatch(into: &mut Draft, mismatch: &Mismatch) -> Result<(), NoMemory>
    ensures { OnOk result (into.new.text ≡ into.old.text ++ mismatch_line mismatch.now) }
{
    match mismatch {
        Mismatch::NoColumn(name, _names) => push_no_column(into, name.as_slice()),
        Mismatch::OtherHeader(file, _names) => push_other_header(into, file.as_slice()),
        Mismatch::TooManyColumns(limit) => push_too_many_columns(into, *limit),
        Mismatch::LongName(column, most) => push_long_name(into, *column, *most),
    }
}

/// Appends the line of a file that has more faults than a bound.
pub(crate) fn push_too_many_faults(into: &mut Draft, bound: u64) -> Result<(), NoMemory>
    ensures { OnOk result (into.new.text ≡ into.old.text ++ too_many_faults_line bound) }
{
    push_plain(into, b"fault|over ")?;
    push_number(into, bound)?;
    push_plain(into, b" faults\n")
}
