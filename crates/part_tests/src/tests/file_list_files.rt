//! Names of several files, and their rows and rejects.
ghost use Rattle.std.specs.Prelude.{◌≡◌, ◌∷◌, [], IfOk, OnOk};
ghost use Rattle.value_types.specs.declared.types.ColumnType.TheVariants.{Bigint};

use column_store::Table;
use csv_source::{Bytes, NoMemory};
use file_list::{Batch, names_of};
use reject_book::{Book, ErrorKind, Keep, Reject};
use std::alloc::Global;
use value_types::{Cell, Cells, ColumnType, Names, Types, Value};

/// A table of one row.
fn one_row(alloc: Global, number: i64) -> Result<Table, NoMemory>
    ensures { IfOk result (λ table. table.types ≡ Bigint ∷ []) }
{
    let mut types = Types::new(alloc);
    types.push(ColumnType::Bigint)?;
    let mut table = Table::new(alloc, &types)?;
    let mut row = Cells::new(alloc);
    row.push(Cell::Value(Value::Int(number)))?;
    table.push_row(&row)?;
    Ok(table)
}

/// A fault of a file.
fn fault(alloc: Global, file_id: u64) -> Result<Reject, NoMemory> {
    Ok(Reject {
        scan_id: 0,
        file_id,
        line: 2,
        line_byte_position: 6,
        byte_position: 6,
        column_idx: 1,
        column_name: Bytes::copy_of(alloc, b"id")?,
        error_type: ErrorKind::Cast,
        csv_line: Bytes::copy_of(alloc, b"x,b")?,
        error_message: Bytes::copy_of(alloc, b"")?,
    })
}

/// A file of one row and one fault comes behind others. Its book keeps so many faults.
fn add_file(batch: &mut Batch, alloc: Global, number: i64, most: u64) -> Result<(), NoMemory>
    requires { batch.old.types ≡ Bigint ∷ [] }
    ensures { OnOk result (batch.new.types ≡ Bigint ∷ []) }
{
    let mut book = Book::new(alloc, Keep::First(most));
    book.add(fault(alloc, batch.len() as u64)?)?;
    batch.add(Bytes::copy_of(alloc, b"a")?, &one_row(alloc, number)?, book)
}

/// A batch of no file yet.
fn empty_batch(alloc: Global) -> Result<Batch, NoMemory>
    ensures { IfOk result (λ batch. batch.types ≡ Bigint ∷ []) }
{
    let mut types = Types::new(alloc);
    types.push(ColumnType::Bigint)?;
    Batch::new(alloc, &types)
}

/// The number of the file with the first error.
fn first_faulty(batch: &Batch) -> Option<u64> {
    match batch.first_error() {
        Some(reject) => Some(reject.file_id),
        None => None,
    }
}

/// Whether a batch has so many files of a row each, the first error in this one.
fn has_files(batch: &Batch, count: usize, faulty: Option<u64>) -> bool {
    batch.len() == count && batch.table().rows() == count && first_faulty(batch) == faulty
}

#[test]
fn the_first_error_is_that_of_the_first_book_that_stores_one(
    rt: HostRuntime,
) -> Result<(), NoMemory> {
    let mut batch = empty_batch(rt.alloc())?;
    assert!(rt; has_files(&batch, 0, None));
    add_file(&mut batch, rt.alloc(), 7, 0)?;
    assert!(rt; has_files(&batch, 1, None));
    add_file(&mut batch, rt.alloc(), 8, 1)?;
    add_file(&mut batch, rt.alloc(), 9, 1)?;
    assert!(rt; has_files(&batch, 3, Some(1)));
    Ok(())
}

fn are_names(names: &Names) -> bool {
    names.len() == 3
        && names.get(0) == b"a.csv".as_slice()
        && names.get(1) == b"b.csv".as_slice()
        && names.get(2) == b"a.csv".as_slice()
}

#[test]
fn names_come_in_order(rt: HostRuntime) -> Result<(), NoMemory> {
    assert!(rt; are_names(&names_of(rt.alloc(), b"a.csv,b.csv,a.csv")?));
    Ok(())
}
