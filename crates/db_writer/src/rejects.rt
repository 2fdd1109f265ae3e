// Scans and rejects as rows.
ghost use Rattle.std.specs.Prelude.{◌≡◌, ◌∷◌, [], map, All, OnOk};
ghost use Rattle.value_types.specs.ValueText.{truth_text};
ghost use Rattle.db_records.specs.Record.{IsWritable, record_bytes};
ghost use Rattle.db_writer.specs.Rejects.{newline_bytes, reject_row, reject_rows, scan_row, scan_rows};
ghost use Rattle.db_writer.specs.Written.{no_values, with_records};

use crate::fields::{push_fields, push_mark};
use crate::row_writer::RowWriter;
use csv_sniffer::{Newline, Sniffed};
use csv_source::NoMemory;
use file_list::FileBook;
use reject_book::{Book, Reject};

/// The bytes of a line end, or what stands in their place.
pub fn newline_bytes(newline: Newline) -> &'static [u8]
    ensures { result.now ≡ newline_bytes newline }
{
    match newline {
        Newline::Lf => b"\n",
        Newline::Cr => b"\r",
        Newline::CrLf => b"\r\n",
        Newline::Mixed => b"mixed",
        Newline::None => b"none",
    }
}

/// The text of a truth value.
pub fn truth_text(truth: bool) -> &'static [u8]
    ensures { result.now ≡ truth_text truth }
{
    match truth {
        true => b"true",
        false => b"false",
    }
}

/// Appends the scan of a file, with its number.
fn push_scan(
    writer: &mut RowWriter,
    sniffed: &Sniffed,
    file_id: u64,
    file: &[u8],
) -> Result<(), NoMemory>
    requires none { writer.old.values ≡ no_values }
    ensures ok { OnOk result (writer.new ≡ with_records writer.old (record_bytes (scan_row sniffed.now file_id file.now) ∷ [])) }
    ensures counted { OnOk result (All IsWritable (scan_row sniffed.now file_id file.now)) }
{
    writer.push_count(0)?;
    writer.push_count(file_id)?;
    writer.push_bytes(file)?;
    push_mark(writer, Some(sniffed.dialect.delim()))?;
    push_mark(writer, sniffed.dialect.quote())?;
    push_mark(writer, sniffed.dialect.escape())?;
    writer.push_text(newline_bytes(sniffed.newline))?;
    writer.push_count(sniffed.skip)?;
    writer.push_text(truth_text(sniffed.header))?;
    writer.push_count(sniffed.types.len() as u64)?;
    writer.end_row()
}

/// Appends a reject.
fn push_reject(writer: &mut RowWriter, reject: &Reject) -> Result<(), NoMemory>
    requires none { writer.old.values ≡ no_values }
    ensures ok { OnOk result (writer.new ≡ with_records writer.old (record_bytes (reject_row reject.now) ∷ [])) }
    ensures counted { OnOk result (All IsWritable (reject_row reject.now)) }
{
    let fields = reject.fields();
    push_fields(writer, &fields)?;
    writer.end_row()
}

/// Appends the scans of files, whose numbers are their places.
pub(crate) fn push_scans(
    writer: &mut RowWriter,
    sniffed: &Sniffed,
    files: &[FileBook],
) -> Result<(), NoMemory>
    requires none { writer.old.values ≡ no_values }
    ensures ok { OnOk result (writer.new ≡ with_records writer.old (map record_bytes (scan_rows sniffed.now 0 files.now))) }
    ensures counted { OnOk result (All (All IsWritable) (scan_rows sniffed.now 0 files.now)) }
{
    for index in 0..files.len() {
        push_scan(writer, sniffed, index as u64, files[index].name.as_slice())?;
    }
    Ok(())
}

/// Appends the stored rejects of a book.
fn push_stored(writer: &mut RowWriter, book: &Book) -> Result<(), NoMemory>
    requires none { writer.old.values ≡ no_values }
    ensures ok { OnOk result (writer.new ≡ with_records writer.old (map record_bytes (map reject_row book.now.stored))) }
    ensures counted { OnOk result (All (All IsWritable) (map reject_row book.now.stored)) }
{
    for index in 0..book.len() {
        push_reject(writer, book.get(index))?;
    }
    Ok(())
}

/// Appends the stored rejects of files, in order.
pub(crate) fn push_rejects(writer: &mut RowWriter, files: &[FileBook]) -> Result<(), NoMemory>
    requires none { writer.old.values ≡ no_values }
    ensures ok { OnOk result (writer.new ≡ with_records writer.old (map record_bytes (reject_rows files.now))) }
    ensures counted { OnOk result (All (All IsWritable) (reject_rows files.now)) }
{
    for file in files {
        push_stored(writer, &file.book)?;
    }
    Ok(())
}
