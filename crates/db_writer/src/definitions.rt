// The definitions of tables.
ghost use Rattle.std.specs.Prelude.{◌≡◌, ◌++◌, ◌∷◌, [], length, zip, IfOk, OnOk};
ghost use Rattle.csv_writer.specs.Quoting.{doubled, quoted};
ghost use Rattle.db_writer.specs.Definitions.{columns_text, create_text, errors_text, scans_text, separator};
ghost use Rattle.db_writer.specs.Naming.{database_names};

use crate::naming::database_names;
use csv_source::NoMemory;
use std::alloc::Global;
use value_types::{Names, Types, type_name};

/// The definition of the table of scans.
pub(crate) fn scans_text() -> &'static [u8]
    ensures { result.now ≡ scans_text }
{
    b"CREATE TABLE \"reject_scans\" (\"scan_id\" INTEGER, \"file_id\" INTEGER, \"file_path\" TEXT, \"delimiter\" TEXT, \"quote\" TEXT, \"escape\" TEXT, \"newline_delimiter\" TEXT, \"skip_rows\" INTEGER, \"has_header\" TEXT, \"columns\" INTEGER)"
}

/// The definition of the table of rejects.
pub(crate) fn errors_text() -> &'static [u8]
    ensures { result.now ≡ errors_text }
{
    b"CREATE TABLE \"reject_errors\" (\"scan_id\" INTEGER, \"file_id\" INTEGER, \"line\" INTEGER, \"line_byte_position\" INTEGER, \"byte_position\" INTEGER, \"column_idx\" INTEGER, \"column_name\" TEXT, \"error_type\" TEXT, \"csv_line\" TEXT, \"error_message\" TEXT)"
}

/// Appends bytes.
fn append(into: &mut Vec<u8>, bytes: &[u8]) -> Result<(), NoMemory>
    ensures { OnOk result (into.new.items ≡ into.old.items ++ bytes.now) }
{
    into.extend_from_slice(bytes)?;
    Ok(())
}

/// Appends a byte, a quote twice.
fn push_byte(into: &mut Vec<u8>, byte: u8) -> Result<(), NoMemory>
    ensures { OnOk result (into.new.items ≡ into.old.items ++ doubled (byte ∷ [])) }
{
    if byte == b'"' {
        return append(into, b"\"\"");
    }
    append(into, &[byte])
}

/// Appends a name with each quote doubled.
fn push_doubled(into: &mut Vec<u8>, name: &[u8]) -> Result<(), NoMemory>
    ensures { OnOk result (into.new.items ≡ into.old.items ++ doubled name.now) }
{
    for byte in name {
        push_byte(into, *byte)?;
    }
    Ok(())
}

/// Appends a name between quotes.
fn push_quoted(into: &mut Vec<u8>, name: &[u8]) -> Result<(), NoMemory>
    ensures { OnOk result (into.new.items ≡ into.old.items ++ quoted name.now) }
{
    append(into, b"\"")?;
    push_doubled(into, name)?;
    append(into, b"\"")
}

/// Appends what stands before a column, counted from 0.
fn push_separator(into: &mut Vec<u8>, column: usize) -> Result<(), NoMemory>
    ensures { OnOk result (into.new.items ≡ into.old.items ++ separator column) }
{
    if column == 0 {
        return Ok(());
    }
    append(into, b", ")
}

/// Appends columns, each by its name and its type.
fn push_columns(into: &mut Vec<u8>, names: &Names, types: &Types) -> Result<(), NoMemory>
    requires { length names.now ≡ length types.now }
    ensures { OnOk result (into.new.items ≡ into.old.items ++ columns_text (zip names.now types.now)) }
{
    for column in 0..types.len() {
        push_separator(into, column)?;
        push_quoted(into, names.get(column))?;
        append(into, b" ")?;
        append(into, type_name(types.get(column)).as_bytes())?;
    }
    Ok(())
}

/// The definition of the table of the rows.
pub(crate) fn create_text(
    alloc: Global,
    table: &[u8],
    names: &Names,
    types: &Types,
) -> Result<Vec<u8>, NoMemory>
    requires { length names.now ≡ length types.now }
    ensures { IfOk result (λ text. text.items ≡ create_text table.now names.now types.now) }
{
    let names = database_names(alloc, names)?;
    let mut text = Vec::new(alloc);
    append(&mut text, b"CREATE TABLE ")?;
    push_quoted(&mut text, table)?;
    append(&mut text, b" (")?;
    push_columns(&mut text, &names, types)?;
    append(&mut text, b")")?;
    Ok(text)
}
