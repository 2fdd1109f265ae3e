// The arrays of a table as an archive.
ghost use Rattle.std.specs.Prelude.{◌≡◌, length, option_map, IfOk, None};
ghost use Rattle.npz_writer.specs.LongKeys.{long_key};
ghost use Rattle.npz_writer.specs.Members.{arrays};

use crate::arrays_text::{ArraysText, text_of};
use crate::findings::Findings;
use crate::sheets::sheets_of;
use column_store::Table;
use csv_source::NoMemory;
use std::alloc::Global;
use std::thread::Threads;

/// The archive of a table's rows, and of the rejects of files, where they are written, by workers side by side.
/// A count of more than 2^63 - 1 in a reject is answered as no memory.
pub fn arrays_of<R: Threads + Sync>(
    rt: &R,
    alloc: Global,
    findings: &Findings<'_>,
    table: Table,
    threads: u32,
) -> Result<ArraysText, NoMemory>
    requires names { length findings.now.sniffed.now.names ≡ length findings.now.sniffed.now.types }
    requires types { table.types ≡ findings.now.sniffed.now.types }
    requires keys { long_key findings.now.sniffed.now ≡ None }
    ensures { let files = option_map (λ files. files.now) findings.now.files in
        IfOk result (λ text. text ≡ arrays findings.now.sniffed.now table.rows files) }
{
    let sheets = sheets_of(alloc, findings, table)?;
    text_of(rt, alloc, sheets, threads)
}
