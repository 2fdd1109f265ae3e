// The fields of a line.
ghost use Rattle.std.specs.Prelude.{◌≡◌, ◌++◌, map, All, OnOk};
ghost use Rattle.csv_writer.specs.Steps.{comma_before};
ghost use Rattle.csv_writer.specs.WrittenTable.{line_of_fields};
ghost use Rattle.column_profile.specs.Fields.{field_text, IsSpelledField};

use csv_source::NoMemory;
use csv_writer::push_text;
use text_pieces::{CELL_ROOM, Draft};
use value_types::Value;

/// A field: nothing, a number, a value, or a text, which may want quotes.
#[derive(Clone, Copy)]
pub(crate) enum Field<'a> {
    Nothing,
    Number(u64),
    Typed(Value),
    Text(&'a [u8]),
}

/// Appends the comma before the field of this number, counted from 0.
fn push_comma(into: &mut Draft, number: usize) -> Result<(), NoMemory>
    ensures { OnOk result (into.new.text ≡ into.old.text ++ comma_before number) }
{
    if number == 0 {
        return Ok(());
    }
    into.push(b',')
}

/// Appends a field.
fn push_field(into: &mut Draft, field: Field<'_>) -> Result<(), NoMemory>
    requires { IsSpelledField field }
    ensures { OnOk result (into.new.text ≡ into.old.text ++ field_text field.entry) }
{
    match field {
        Field::Nothing => Ok(()),
        Field::Number(number) => into.append(itoa::Buffer::new().format(number).as_bytes()),
        Field::Typed(value) => {
            into.make_room(CELL_ROOM)?;
            into.put_value(&value);
            Ok(())
        }
        Field::Text(bytes) => push_text(into, bytes),
    }
}

/// Appends a line of fields.
pub(crate) fn push_line(into: &mut Draft, fields: &[Field<'_>]) -> Result<(), NoMemory>
    requires { All IsSpelledField fields.now }
    ensures { OnOk result (into.new.text ≡ into.old.text ++ line_of_fields (map field_text fields.now)) }
{
    for number in 0..fields.len() {
        let field = fields[number];
        push_comma(into, number)?;
        push_field(into, field)?;
    }
    into.push(b'\n')
}
