// A whole database.
ghost use Rattle.std.specs.Prelude.{◌≡◌, ◌<◌, ◌≤◌, ◌^◌, length, All, IfOk, OnOk};
ghost use Rattle.load_options.specs.declared.limits.TheConstants.{THREADS};
ghost use Rattle.csv_writer.specs.Writable.{IsWritableRow};
ghost use Rattle.db_pages.specs.Grown.{closed, grown, tree_over};
ghost use Rattle.db_pages.specs.Image.{with_table};
ghost use Rattle.db_writer.specs.Written.{records_of};
ghost use Rattle.db_records.specs.Record.{IsWritable};
ghost use Rattle.db_writer.specs.Rejects.{AreCounted, reject_rows, scan_rows};
ghost use Rattle.db_writer.specs.Database.{database, errors_table, rows_table, scans_table, with_tabled};

use crate::contents::Contents;
use crate::definitions::{create_text, errors_text, scans_text};
use crate::groups::{cut_blocks, push_groups, workers_for, write_again, write_groups};
use crate::rejects::{push_rejects, push_scans};
use crate::row_writer::RowWriter;
use column_store::Table;
use csv_sniffer::Sniffed;
use csv_source::NoMemory;
use db_pages::laws::tables_follow;
use db_pages::{Image, Leaves, TablePages};
use file_list::FileBook;
use std::alloc::Global;
use std::thread::Threads;
use text_pieces::Pieces;

/// Appends a table by its leaves.
fn push_leaves(
    alloc: Global,
    image: &mut Image,
    name: &[u8],
    sql: &[u8],
    leaves: Leaves,
) -> Result<(), NoMemory>
    ensures ok { OnOk result (image.new ≡ with_table image.old name.now sql.now (tree_over (closed leaves))) }
{
    let pages = TablePages::of(alloc, leaves)?;
    let tree = pages.finish()?;
    image.push(name, sql, tree)
}

/// The leaves of rows, behind so many pages, which at most so many workers write.
fn write_pages<R: Threads + Sync>(
    rt: &R,
    alloc: Global,
    rows: &Table,
    base: u64,
    threads: u32,
) -> Result<TablePages, NoMemory>
    requires threads { (1 ≤ threads) × (threads ≤ THREADS.most) }
    requires writable { All IsWritableRow rows.now.rows }
    ensures ok { IfOk result (λ pages. pages ≡ grown base 1 (records_of rows.now.rows)) }
{
    let count = rows.rows();
    let mut groups = cut_blocks(alloc, count, workers_for(count, threads), base)?;
    write_groups(rt, alloc, rows, groups.as_mut_slice());
    write_again(rt, alloc, rows, groups.as_mut_slice(), base)?;
    let mut pages = TablePages::new(alloc, base);
    push_groups(alloc, rows, &mut pages, groups)?;
    Ok(pages)
}

/// Appends the table of the rows.
fn push_rows_table<R: Threads + Sync>(
    rt: &R,
    alloc: Global,
    image: &mut Image,
    contents: &Contents<'_>,
    threads: u32,
) -> Result<(), NoMemory>
    requires names { length contents.now.sniffed.now.names ≡ length contents.now.sniffed.now.types }
    requires threads { (1 ≤ threads) × (threads ≤ THREADS.most) }
    requires writable { All IsWritableRow contents.now.rows.now.rows }
    ensures ok { let rows = rows_table contents.now.table.now contents.now.sniffed.now contents.now.rows.now.rows in
        OnOk result (image.new ≡ with_tabled image.old rows) }
{
    let sniffed = contents.sniffed;
    let sql = create_text(alloc, contents.table, &sniffed.names, &sniffed.types)?;
    let pages = write_pages(rt, alloc, contents.rows, image.next_place(), threads)?;
    let tree = pages.finish()?;
    image.push(contents.table, &sql, tree)
}

/// Appends the table of the scans.
fn push_scans_table(
    alloc: Global,
    image: &mut Image,
    sniffed: &Sniffed,
    files: &[FileBook],
) -> Result<(), NoMemory>
    ensures ok { OnOk result (image.new ≡ with_tabled image.old (scans_table sniffed.now files.now)) }
    ensures counted { OnOk result (All (All IsWritable) (scan_rows sniffed.now 0 files.now)) }
{
    let mut writer = RowWriter::new(alloc, image.next_place(), 1);
    push_scans(&mut writer, sniffed, files)?;
    push_leaves(
        alloc,
        image,
        b"reject_scans",
        scans_text(),
        writer.into_leaves(),
    )
}

/// Appends the table of the rejects.
fn push_errors_table(alloc: Global, image: &mut Image, files: &[FileBook]) -> Result<(), NoMemory>
    ensures ok { OnOk result (image.new ≡ with_tabled image.old (errors_table files.now)) }
    ensures counted { OnOk result (All (All IsWritable) (reject_rows files.now)) }
{
    let mut writer = RowWriter::new(alloc, image.next_place(), 1);
    push_rejects(&mut writer, files)?;
    push_leaves(
        alloc,
        image,
        b"reject_errors",
        errors_text(),
        writer.into_leaves(),
    )
}

/// The text of a database, whose rows at most so many workers write; what each wrote is a piece of the text. The numbers of files
/// are their places from 0 on. What can't be counted counts as want of memory, as a number of 2^63 and more, or more pages than
/// SQLite numbers.
pub fn write_database<R: Threads + Sync>(
    rt: &R,
    alloc: Global,
    contents: &Contents<'_>,
    threads: u32,
) -> Result<Pieces, NoMemory>
    requires names { length contents.now.sniffed.now.names ≡ length contents.now.sniffed.now.types }
    requires threads { (1 ≤ threads) × (threads ≤ THREADS.most) }
    requires writable { All IsWritableRow contents.now.rows.now.rows }
    ensures value { IfOk result (λ text. text ≡ database contents.now.table.now contents.now.sniffed.now contents.now.rows.now.rows contents.now.files.now) }
    ensures few { IfOk result (λ text. length text < 2 ^ 44) }
    ensures counted { IfOk result (λ _. AreCounted contents.now.sniffed.now contents.now.files.now) }
{
    tables_follow();
    let mut image = Image::new(alloc);
    push_rows_table(rt, alloc, &mut image, contents, threads)?;
    push_scans_table(alloc, &mut image, contents.sniffed, contents.files)?;
    push_errors_table(alloc, &mut image, contents.files)?;
    image.finish()
}
