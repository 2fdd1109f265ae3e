//! What texts of two columns are read by.
ghost use Rattle.std.specs.Prelude.{◌≡◌, true, IfOk};
ghost use Rattle.range_scan.specs.Scanned.{HasColumns};
ghost use Rattle.reject_book.specs.declared.book.Keep.TheVariants.{First as first_of};

use byte_classes::Dialect;
use csv_source::{Bytes, NoMemory};
use range_scan::Context;
use reject_book::{Keep, Schema};
use std::alloc::Global;
use value_types::{ColumnType, Names, Types};

/// A schema of a column of a type, and one of texts, in rows of at most so many bytes.
fn schema_of(alloc: Global, first: ColumnType, line_size: u64) -> Result<Schema, NoMemory>
    ensures columns { IfOk result HasColumns }
    ensures line { IfOk result (λ schema. schema.max_line_size ≡ line_size) }
{
    let mut names = Names::new(alloc);
    names.push(b"first")?;
    names.push(b"second")?;
    let mut types = Types::new(alloc);
    types.push(first)?;
    types.push(ColumnType::Varchar)?;
    Ok(Schema {
        names,
        types,
        nullstr: Bytes::from_vec(Vec::new(alloc)),
        nulls: Names::new(alloc),
        allow_quoted_nulls: true,
        null_padding: false,
        max_line_size: line_size,
    })
}

/// A context whose reading ends with the first reject where it is to stop.
pub fn context_of(
    alloc: Global,
    dialect: Dialect,
    first: ColumnType,
    line_size: u64,
    stop: bool,
) -> Result<Context, NoMemory>
    ensures columns { IfOk result (λ context. HasColumns context.schema) }
    ensures line { IfOk result (λ context. context.schema.max_line_size ≡ line_size) }
    ensures keep { IfOk result (λ context. stop ≡ true → context.keep ≡ first_of 1) }
{
    Ok(Context {
        dialect,
        schema: schema_of(alloc, first, line_size)?,
        keep: if stop { Keep::First(1) } else { Keep::All },
        scan_id: 0,
        file_id: 0,
    })
}

/// Some bytes, so many times.
pub fn repeated(alloc: Global, piece: &[u8], count: usize) -> Result<Vec<u8>, NoMemory> {
    let mut text = Vec::new(alloc);
    for _ in 0..count {
        text.extend_from_slice(piece)?;
    }
    Ok(text)
}
