// Scans as a sheet.
ghost use Rattle.std.specs.Prelude.{◌≡◌, ◌++◌, ◌∷◌, [], map, IfOk, OnOk};
ghost use Rattle.std.specs.Option.{option_to_list};
ghost use Rattle.reject_book.specs.Fields.{field_of};
ghost use Rattle.npz_writer.specs.Marks.{marks_of};
ghost use Rattle.npz_writer.specs.RejectSheets.{scan_cells, scan_columns, scan_fields, scan_rows, scans};

use crate::labels::columns_of;
use crate::rejects::push_fields;
use crate::sheet::Sheet;
use column_store::Table;
use csv_sniffer::Sniffed;
use csv_source::NoMemory;
use db_writer::{newline_bytes, truth_text};
use file_list::FileBook;
use reject_book::RejectField;
use std::alloc::Global;
use value_types::{Cells, ColumnType};

const SCAN_COLUMNS: [(&[u8], ColumnType); 10] = [
    (b"reject_scans/scan_id", ColumnType::Bigint),
    (b"reject_scans/file_id", ColumnType::Bigint),
    (b"reject_scans/file_path", ColumnType::Varchar),
    (b"reject_scans/delimiter", ColumnType::Varchar),
    (b"reject_scans/quote", ColumnType::Varchar),
    (b"reject_scans/escape", ColumnType::Varchar),
    (b"reject_scans/newline_delimiter", ColumnType::Varchar),
    (b"reject_scans/skip_rows", ColumnType::Bigint),
    (b"reject_scans/has_header", ColumnType::Varchar),
    (b"reject_scans/columns", ColumnType::Bigint),
];

/// The marks that were found.
#[derive(Clone, Copy)]
struct Marks {
    delim: Option<u8>,
    quote: Option<u8>,
    escape: Option<u8>,
}

/// The byte of a mark, or nothing.
fn mark_bytes(mark: &Option<u8>) -> &[u8]
    ensures { result.now ≡ option_to_list mark.now }
{
    mark.as_slice()
}

/// The fields of the scan of a file, with its number.
fn scan_fields<'a>(
    sniffed: &Sniffed,
    file_id: u64,
    file: &'a [u8],
    marks: &'a Marks,
) -> [RejectField<'a>; 10]
    requires { marks.now ≡ marks_of sniffed.now }
    ensures { map field_of result ≡ scan_fields sniffed.now file_id file.now }
{
    [
        RejectField::Number(0),
        RejectField::Number(file_id),
        RejectField::Bytes(file),
        RejectField::Text(mark_bytes(&marks.delim)),
        RejectField::Text(mark_bytes(&marks.quote)),
        RejectField::Text(mark_bytes(&marks.escape)),
        RejectField::Text(newline_bytes(sniffed.newline)),
        RejectField::Number(sniffed.skip),
        RejectField::Text(truth_text(sniffed.header)),
        RejectField::Number(sniffed.types.len() as u64),
    ]
}

/// Appends the scan of a file, with its number.
fn push_scan(
    table: &mut Table,
    cells: &mut Cells,
    sniffed: &Sniffed,
    file_id: u64,
    file: &[u8],
) -> Result<(), NoMemory>
    requires { table.old.types ≡ map (λ column. column.1) scan_columns }
    ensures types { OnOk result (table.new.types ≡ table.old.types) }
    ensures rows { OnOk result (table.new.rows ≡ table.old.rows ++ scan_cells sniffed.now file_id file.now ∷ []) }
{
    let marks = Marks {
        delim: Some(sniffed.dialect.delim()),
        quote: sniffed.dialect.quote(),
        escape: sniffed.dialect.escape(),
    };
    let fields = scan_fields(sniffed, file_id, file, &marks);
    push_fields(table, cells, &fields)
}

/// Appends the scans of files, whose numbers are their places.
fn push_scans(
    alloc: Global,
    table: &mut Table,
    sniffed: &Sniffed,
    files: &[FileBook],
) -> Result<(), NoMemory>
    requires { table.old.types ≡ map (λ column. column.1) scan_columns }
    ensures types { OnOk result (table.new.types ≡ table.old.types) }
    ensures rows { OnOk result (table.new.rows ≡ table.old.rows ++ scan_rows sniffed.now 0 files.now) }
{
    let mut cells = Cells::new(alloc);
    for index in 0..files.len() {
        let file = files[index].name.as_slice();
        push_scan(table, &mut cells, sniffed, index as u64, file)?;
    }
    Ok(())
}

/// The sheet of the scans of files.
pub(crate) fn scans(alloc: Global, sniffed: &Sniffed, files: &[FileBook]) -> Result<Sheet, NoMemory>
    ensures { IfOk result (λ sheet. sheet ≡ scans sniffed.now files.now) }
{
    let (keys, types) = columns_of(alloc, &SCAN_COLUMNS)?;
    let mut table = Table::new(alloc, &types)?;
    push_scans(alloc, &mut table, sniffed, files)?;
    Ok(Sheet { keys, table })
}
