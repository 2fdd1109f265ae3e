//! What rows of two columns are read by.
ghost use Rattle.std.specs.Prelude.{IfOk};
ghost use Rattle.range_scan.specs.Scanned.{HasColumns};

use byte_classes::Dialect;
use csv_source::{Bytes, NoMemory};
use range_scan::Context;
use reject_book::{Keep, Schema};
use std::alloc::Global;
use value_types::{ColumnType, Names, Types};

/// A column of a type, and one of texts.
pub fn schema(alloc: Global, first: ColumnType) -> Result<Schema, NoMemory>
    ensures { IfOk result HasColumns }
{
    let mut names = Names::new(alloc);
    names.push(b"a")?;
    names.push(b"b")?;
    let mut types = Types::new(alloc);
    types.push(first)?;
    types.push(ColumnType::Varchar)?;
    Ok(Schema {
        names,
        types,
        nullstr: Bytes::from_vec(Vec::new(alloc)),
        nulls: Names::new(alloc),
        allow_quoted_nulls: true,
        null_padding: true,
        max_line_size: 2_097_152,
    })
}

/// The rejects of all rows are kept.
pub fn context(alloc: Global, dialect: Dialect) -> Result<Context, NoMemory>
    ensures { IfOk result (λ context. HasColumns context.schema) }
{
    Ok(Context {
        dialect,
        schema: schema(alloc, ColumnType::Bigint)?,
        keep: Keep::All,
        scan_id: 0,
        file_id: 0,
    })
}
