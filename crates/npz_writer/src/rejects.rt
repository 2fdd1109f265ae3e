// Rejects as a sheet.
ghost use Rattle.std.specs.Prelude.{◌≡◌, ◌++◌, ◌∷◌, [], map, true, IfOk, OnOk, pos};
ghost use Rattle.value_types.specs.OfType.{fit_all};
ghost use Rattle.value_types.specs.Datum.{datum_of};
ghost use Rattle.reject_book.specs.Fields.{field_of};
ghost use Rattle.npz_writer.specs.RejectSheets.{cells_of, error_columns, error_rows, errors, field_cell, reject_cells};

use crate::labels::columns_of;
use crate::sheet::Sheet;
use column_store::Table;
use csv_source::NoMemory;
use file_list::FileBook;
use reject_book::{Book, Reject, RejectField};
use std::alloc::Global;
use value_types::{Cell, Cells, ColumnType, Value};

const ERROR_COLUMNS: [(&[u8], ColumnType); 10] = [
    (b"reject_errors/scan_id", ColumnType::Bigint),
    (b"reject_errors/file_id", ColumnType::Bigint),
    (b"reject_errors/line", ColumnType::Bigint),
    (b"reject_errors/line_byte_position", ColumnType::Bigint),
    (b"reject_errors/byte_position", ColumnType::Bigint),
    (b"reject_errors/column_idx", ColumnType::Bigint),
    (b"reject_errors/column_name", ColumnType::Varchar),
    (b"reject_errors/error_type", ColumnType::Varchar),
    (b"reject_errors/csv_line", ColumnType::Varchar),
    (b"reject_errors/error_message", ColumnType::Varchar),
];

/// The cell of a field. A number of 2^63 and more has none.
fn field_cell<'a>(field: RejectField<'a>) -> Result<Cell<'a>, NoMemory>
    ensures { IfOk result (λ cell. datum_of cell ≡ field_cell (field_of field.entry)) }
{
    match field {
        RejectField::Number(number) => match i64::try_from(number) {
            Ok(number) => Ok(Cell::Value(Value::Int(number))),
            Err(_) => Err(NoMemory),
        },
        RejectField::Text(text) | RejectField::Bytes(text) => Ok(Cell::Text(text)),
    }
}

/// Appends a row of fields.
pub(crate) fn push_fields(
    table: &mut Table,
    cells: &mut Cells,
    fields: &[RejectField<'_>],
) -> Result<(), NoMemory>
    requires { fit_all table.old.types (cells_of (map field_of fields.now)) ≡ true }
    ensures types { OnOk result (table.new.types ≡ table.old.types) }
    ensures rows { OnOk result (table.new.rows ≡ table.old.rows ++ cells_of (map field_of fields.now) ∷ []) }
{
    cells.clear();
    for field in fields {
        cells.push(field_cell(*field)?)?;
    }
    table.push_row(cells)
}

/// Appends a reject.
fn push_reject(table: &mut Table, cells: &mut Cells, reject: &Reject) -> Result<(), NoMemory>
    requires { table.old.types ≡ map (λ column. column.1) error_columns }
    ensures types { OnOk result (table.new.types ≡ table.old.types) }
    ensures rows { OnOk result (table.new.rows ≡ table.old.rows ++ reject_cells reject.now ∷ []) }
{
    let fields = reject.fields();
    push_fields(table, cells, &fields)
}

/// Appends the stored rejects of a book.
fn push_stored(table: &mut Table, cells: &mut Cells, book: &Book) -> Result<(), NoMemory>
    requires { table.old.types ≡ map (λ column. column.1) error_columns }
    ensures types { OnOk result (table.new.types ≡ table.old.types) }
    ensures rows { OnOk result (table.new.rows ≡ table.old.rows ++ map reject_cells book.now.stored) }
{
    for index in 0..book.len() {
        push_reject(table, cells, book.get(index))?;
    }
    Ok(())
}

/// Appends the stored rejects of files, in order.
fn push_rejects(alloc: Global, table: &mut Table, files: &[FileBook]) -> Result<(), NoMemory>
    requires { table.old.types ≡ map (λ column. column.1) error_columns }
    ensures types { OnOk result (table.new.types ≡ table.old.types) }
    ensures rows { OnOk result (table.new.rows ≡ table.old.rows ++ error_rows files.now) }
{
    let mut cells = Cells::new(alloc);
    for file in files {
        push_stored(table, &mut cells, &file.book)?;
    }
    Ok(())
}

/// The sheet of the stored rejects of files.
pub(crate) fn errors(alloc: Global, files: &[FileBook]) -> Result<Sheet, NoMemory>
    ensures { IfOk result (λ sheet. sheet ≡ errors files.now) }
{
    let (keys, types) = columns_of(alloc, &ERROR_COLUMNS)?;
    let mut table = Table::new(alloc, &types)?;
    push_rejects(alloc, &mut table, files)?;
    Ok(Sheet { keys, table })
}
