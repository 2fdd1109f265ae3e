// What the rows of a file are scanned by.
ghost use Rattle.std.specs.Prelude.{◌≡◌, IfOk};
ghost use Rattle.loader_reply.specs.Loading.{context_of};
ghost use Rattle.loader_reply.specs.Reading.{keep_of, schema_of};

use csv_sniffer::Sniffed;
use csv_source::{Bytes, NoMemory};
use load_options::Options;
use range_scan::Context;
use reject_book::{Keep, Schema};
use std::alloc::Global;
use value_types::{Names, Types};

/// What each row is judged by.
fn schema_of(alloc: Global, options: &Options, sniffed: &Sniffed) -> Result<Schema, NoMemory>
    ensures ok { IfOk result (λ schema. schema ≡ schema_of options.now sniffed.now) }
{
    Ok(Schema {
        names: Names::copy_of(alloc, &sniffed.names)?,
        types: Types::copy_of(alloc, &sniffed.types)?,
        nullstr: Bytes::copy_of(alloc, options.nullstr.as_slice())?,
        nulls: Names::copy_of(alloc, &options.nulls)?,
        allow_quoted_nulls: options.allow_quoted_nulls,
        null_padding: options.null_padding,
        max_line_size: options.max_line_size,
    })
}

/// How many rejects are kept. Where errors are neither ignored nor stored, the first one ends the load.
fn keep_of(options: &Options) -> Keep
    ensures { result ≡ keep_of options.now }
{
    if options.store_rejects {
        if options.rejects_limit == 0 {
            Keep::All
        } else {
            Keep::First(options.rejects_limit)
        }
    } else if options.ignore_errors {
        Keep::First(0)
    } else {
        Keep::First(1)
    }
}

/// What all rows of the file of a number are scanned by.
pub fn context_of(
    alloc: Global,
    options: &Options,
    sniffed: &Sniffed,
    file_id: u64,
) -> Result<Context, NoMemory>
    ensures ok { IfOk result (λ context. context ≡ context_of options.now sniffed.now file_id) }
{
    Ok(Context {
        dialect: sniffed.dialect,
        schema: schema_of(alloc, options, sniffed)?,
        keep: keep_of(options),
        scan_id: 0,
        file_id,
    })
}
