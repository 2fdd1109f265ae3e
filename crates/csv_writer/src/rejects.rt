// Rejects as CSV text, for a program that reads CSV. The fields are those of an error line of the report, but that bytes stand as
// they are: a text stands between quotes where a text of a table does, and a number never.
ghost use Rattle.std.specs.Prelude.{◌≡◌, ◌++◌, flat_map, IfOk, OnOk};
ghost use Rattle.reject_book.specs.Fields.{field_names};
ghost use Rattle.csv_writer.specs.WrittenRejects.{reject_line, written_rejects};
ghost use Rattle.csv_writer.specs.WrittenTable.{names_line};

mod line;

use crate::rejects::line::push_line;
use csv_source::NoMemory;
use reject_book::{Book, Reject, RejectField};
use std::alloc::Global;
use text_pieces::{Draft, Pieces};

/// Appends the line of names.
fn push_names(into: &mut Draft) -> Result<(), NoMemory>
    ensures { OnOk result (into.new.text ≡ into.old.text ++ names_line field_names) }
{
    push_line(
        into,
        &[
            RejectField::Text(b"scan_id"),
            RejectField::Text(b"file_id"),
            RejectField::Text(b"line"),
            RejectField::Text(b"line_byte_position"),
            RejectField::Text(b"byte_position"),
            RejectField::Text(b"column_idx"),
            RejectField::Text(b"column_name"),
            RejectField::Text(b"error_type"),
            RejectField::Text(b"csv_line"),
            RejectField::Text(b"error_message"),
        ],
    )
}

/// Appends the line of a reject.
fn push_reject(into: &mut Draft, reject: &Reject) -> Result<(), NoMemory>
    ensures { OnOk result (into.new.text ≡ into.old.text ++ reject_line reject.now) }
{
    let fields = reject.fields();
    push_line(into, &fields)
}

/// Appends the lines of the stored rejects.
fn push_stored(into: &mut Draft, book: &Book) -> Result<(), NoMemory>
    ensures { OnOk result (into.new.text ≡ into.old.text ++ flat_map reject_line book.now.stored) }
{
    for index in 0..book.len() {
        push_reject(into, book.get(index))?;
    }
    Ok(())
}

/// The stored rejects of a book as CSV text, in order, under a line with the names of their fields.
pub fn write_rejects(alloc: Global, book: &Book) -> Result<Pieces, NoMemory>
    ensures { IfOk result (λ text. text ≡ written_rejects book.now.stored) }
{
    let mut text = Draft::new(alloc);
    push_names(&mut text)?;
    push_stored(&mut text, book)?;
    Ok(Pieces::of(alloc, text.into_text()))
}
