// The sheets of an archive.
ghost use Rattle.std.specs.Prelude.{◌≡◌, length, option_map, IfOk, None, All};
ghost use Rattle.npz_writer.specs.LongKeys.{long_key};
ghost use Rattle.npz_writer.specs.Members.{sheets};
ghost use Rattle.npz_writer.specs.Sheets.{IsTold};

use crate::findings::Findings;
use crate::keys::column_keys;
use crate::labels::labels;
use crate::rejects::errors;
use crate::scans::scans;
use crate::sheet::Sheet;
use column_store::Table;
use csv_source::NoMemory;
use std::alloc::Global;

/// The sheets of a table's rows, and of the rejects of files, where they are written.
pub(crate) fn sheets_of(
    alloc: Global,
    findings: &Findings<'_>,
    table: Table,
) -> Result<Vec<Sheet>, NoMemory>
    requires names { length findings.now.sniffed.now.names ≡ length findings.now.sniffed.now.types }
    requires types { table.types ≡ findings.now.sniffed.now.types }
    requires keys { long_key findings.now.sniffed.now ≡ None }
    ensures sheets { let files = option_map (λ files. files.now) findings.now.files in
        IfOk result (λ made. made.items ≡ sheets findings.now.sniffed.now table.rows files) }
    ensures told { IfOk result (λ made. All IsTold made.items) }
{
    let sniffed = findings.sniffed;
    let keys = column_keys(alloc, &sniffed.names)?;
    let mut sheets = Vec::with_capacity(alloc, 4)?;
    sheets.push(labels(alloc, &keys, &sniffed.types)?)?;
    sheets.push(Sheet { keys, table })?;
    if let Some(files) = findings.files {
        sheets.push(scans(alloc, sniffed, files)?)?;
        sheets.push(errors(alloc, files)?)?;
    }
    Ok(sheets)
}
