// The fields of a row about files and rejects, as values.
ghost use Rattle.std.specs.Prelude.{◌≡◌, map, All, OnOk};
ghost use Rattle.std.specs.Option.{option_to_list};
ghost use Rattle.sqlite_value.specs.declared.value.Value.TheVariants as stored;
ghost use Rattle.db_records.specs.Record.{IsWritable};
ghost use Rattle.db_writer.specs.Field.{field_value};
ghost use Rattle.db_writer.specs.Written.{with_value, with_values};

use crate::row_writer::RowWriter;
use csv_source::NoMemory;
use reject_book::RejectField;

/// Appends a byte as a text, the empty one where there is none.
pub(crate) fn push_mark(writer: &mut RowWriter, mark: Option<u8>) -> Result<(), NoMemory>
    ensures ok { OnOk result (writer.new ≡ with_value writer.old (stored.Text (option_to_list mark))) }
{
    match mark {
        Some(byte) => writer.push_text(&[byte]),
        None => writer.push_text(b""),
    }
}

/// Appends a field.
fn push_field(writer: &mut RowWriter, field: RejectField<'_>) -> Result<(), NoMemory>
    ensures ok { OnOk result (writer.new ≡ with_value writer.old (field_value field.entry)) }
    ensures counted { OnOk result (IsWritable (field_value field.entry)) }
{
    match field {
        RejectField::Number(number) => writer.push_count(number),
        RejectField::Text(text) => writer.push_text(text),
        RejectField::Bytes(bytes) => writer.push_bytes(bytes),
    }
}

/// Appends fields.
pub(crate) fn push_fields(
    writer: &mut RowWriter,
    fields: &[RejectField<'_>],
) -> Result<(), NoMemory>
    ensures ok { OnOk result (writer.new ≡ with_values writer.old (map field_value fields.now)) }
    ensures counted { OnOk result (All IsWritable (map field_value fields.now)) }
{
    for field in fields {
        push_field(writer, *field)?;
    }
    Ok(())
}
