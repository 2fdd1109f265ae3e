// The lines of a scan and of its rejects.
ghost use Rattle.std.specs.Prelude.{◌≡◌, ◌++◌, flat_map, OnOk};
ghost use Rattle.report_text.specs.Lines.{error_line, scan_line};
ghost use Rattle.report_text.specs.Report.{reject_lines, stored_count};

use crate::Loaded;
use crate::found::{newline_text, truth_text};
use crate::lines::{Part, push_line};
use csv_sniffer::Sniffed;
use csv_source::NoMemory;
use reject_book::{Book, Reject, kind_name};
use text_pieces::Draft;

/// Appends the line of the scan of a file, with its number.
pub(crate) fn push_scan(
    into: &mut Draft,
    sniffed: &Sniffed,
    file_id: u64,
    file: &[u8],
) -> Result<(), NoMemory>
    ensures { OnOk result (into.new.text ≡ into.old.text ++ scan_line sniffed.now file_id file.now) }
{
    push_line(
        into,
        b"scan",
        &[
            Part::Number(0),
            Part::Number(file_id),
            Part::Shown(file),
            Part::Mark(Some(sniffed.dialect.delim())),
            Part::Mark(sniffed.dialect.quote()),
            Part::Mark(sniffed.dialect.escape()),
            Part::Plain(newline_text(sniffed.newline)),
            Part::Number(sniffed.skip),
            Part::Plain(truth_text(sniffed.header)),
            Part::Number(sniffed.types.len() as u64),
        ],
    )
}

/// Appends the line of a reject.
pub(crate) fn push_reject(into: &mut Draft, reject: &Reject) -> Result<(), NoMemory>
    ensures { OnOk result (into.new.text ≡ into.old.text ++ error_line reject.now) }
{
    push_line(
        into,
        b"error",
        &[
            Part::Number(reject.scan_id),
            Part::Number(reject.file_id),
            Part::Number(reject.line),
            Part::Number(reject.line_byte_position),
            Part::Number(reject.byte_position),
            Part::Number(reject.column_idx),
            Part::Shown(reject.column_name.as_slice()),
            Part::Plain(kind_name(reject.error_type).as_bytes()),
            Part::Shown(reject.csv_line.as_slice()),
            Part::Shown(reject.error_message.as_slice()),
        ],
    )
}

/// Appends the lines of the stored rejects.
pub(crate) fn push_stored(into: &mut Draft, book: &Book) -> Result<(), NoMemory>
    ensures { OnOk result (into.new.text ≡ into.old.text ++ flat_map error_line book.now.stored) }
{
    for index in 0..book.len() {
        push_reject(into, book.get(index))?;
    }
    Ok(())
}

/// Appends the scan and the stored rejects, where they are stored.
pub(crate) fn push_rejects(into: &mut Draft, loaded: &Loaded) -> Result<(), NoMemory>
    ensures { OnOk result (into.new.text ≡ into.old.text ++ reject_lines loaded.now) }
{
    if !loaded.store {
        return Ok(());
    }
    push_scan(into, &loaded.sniffed, 0, loaded.file.as_slice())?;
    push_stored(into, &loaded.book)
}

/// How many rejects are printed.
pub(crate) fn stored_count(loaded: &Loaded) -> usize
    ensures { result ≡ stored_count loaded.now }
{
    if loaded.store { loaded.book.len() } else { 0 }
}
