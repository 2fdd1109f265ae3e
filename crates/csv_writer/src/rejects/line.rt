// The line of a reject.
ghost use Rattle.std.specs.Prelude.{◌≡◌, ◌++◌, map, OnOk};
ghost use Rattle.csv_writer.specs.WrittenTable.{line_of_fields};
ghost use Rattle.csv_writer.specs.WrittenField.{written_field};

use crate::fields::{push_comma, push_text};
use csv_source::NoMemory;
use reject_book::RejectField;
use text_pieces::Draft;

/// Appends a field.
fn push_field(into: &mut Draft, field: RejectField<'_>) -> Result<(), NoMemory>
    ensures { OnOk result (into.new.text ≡ into.old.text ++ written_field field.entry) }
{
    match field {
        RejectField::Number(number) => {
            push_text(into, itoa::Buffer::new().format(number).as_bytes())
        }
        RejectField::Text(text) => push_text(into, text),
        RejectField::Bytes(bytes) => push_text(into, bytes),
    }
}

/// Appends a line of fields. A line takes no memory of its own.
pub(crate) fn push_line(into: &mut Draft, fields: &[RejectField<'_>]) -> Result<(), NoMemory>
    ensures { OnOk result (into.new.text ≡ into.old.text ++ line_of_fields (map written_field fields.now)) }
{
    for column in 0..fields.len() {
        let field = fields[column];
        push_comma(into, column)?;
        push_field(into, field)?;
    }
    into.push(b'\n')
}
