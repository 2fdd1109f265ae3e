//! A database that several workers write.
ghost use Rattle.std.specs.Prelude.{◌≡◌, ◌≤◌, ◌∷◌, [], length, All, IfOk, OnOk};
ghost use Rattle.load_options.specs.declared.limits.TheConstants.{THREADS};
ghost use Rattle.value_types.specs.declared.types.ColumnType.TheVariants.{Varchar};
ghost use Rattle.value_types.specs.Spelled.{IsSpelledCell};

use super::db_writer_images::{Made, is_made};
use byte_classes::Dialect;
use column_store::Table;
use csv_sniffer::{Newline, Noticed, Sniffed};
use csv_source::NoMemory;
use db_writer::{Contents, write_database};
use std::alloc::Global;
use std::thread::Threads;
use value_types::{Cell, Cells, ColumnType, Names, Types};

/// What was found: a column of texts.
fn found(alloc: Global) -> Result<Sniffed, NoMemory>
    ensures names { IfOk result (λ sniffed. length sniffed.names ≡ length sniffed.types) }
    ensures types { IfOk result (λ sniffed. sniffed.types ≡ Varchar ∷ []) }
{
    let Ok(dialect) = Dialect::new(b',', Some(b'"'), None) else {
        return Err(NoMemory);
    };
    let mut names = Names::new(alloc);
    names.push(b"note")?;
    let mut types = Types::new(alloc);
    types.push(ColumnType::Varchar)?;
    Ok(Sniffed {
        dialect,
        newline: Newline::Lf,
        skip: 0,
        header: true,
        names,
        types,
        data_start: 0,
        noticed: Noticed {
            other_delim: None,
            comment_lines: 0,
            idle_quote: None,
            lines_above: 0,
            zero_columns: 0,
        },
    })
}

/// Appends a row of a text.
fn push(table: &mut Table, row: &mut Cells, text: &[u8]) -> Result<(), NoMemory>
    requires types { table.old.types ≡ Varchar ∷ [] }
    requires values { All (λ cells. All IsSpelledCell cells) table.old.rows }
    ensures types { OnOk result (table.new.types ≡ Varchar ∷ []) }
    ensures values { OnOk result (All (λ cells. All IsSpelledCell cells) table.new.rows) }
{
    row.clear();
    row.push(Cell::Text(text))?;
    table.push_row(row)
}

/// Rows of three blocks, one of which has a text that goes on in other pages.
fn three_blocks(alloc: Global, types: &Types) -> Result<Table, NoMemory>
    requires { types.now ≡ Varchar ∷ [] }
    ensures { IfOk result (λ table. All (λ cells. All IsSpelledCell cells) table.rows) }
{
    let mut table = Table::new(alloc, types)?;
    let mut row = Cells::new(alloc);
    let mut long = Vec::new(alloc);
    long.resize(9000, b'x')?;
    for index in 0..17_000usize {
        let text: &[u8] = if index == 9000 { &long } else { b"short" };
        push(&mut table, &mut row, text)?;
    }
    Ok(table)
}

const MADE: Made = (
    241_664,
    "9e2e2522deccba785e7f3970521e46a7a05c20c612bbf50462445b2da1d90a45",
);

/// Whether so many threads write what another program made.
fn is_written<R: Threads + Sync>(
    rt: &R,
    alloc: Global,
    contents: &Contents<'_>,
    threads: u32,
) -> Result<bool, NoMemory>
    requires names { length contents.now.sniffed.now.names ≡ length contents.now.sniffed.now.types }
    requires threads { (1 ≤ threads) × (threads ≤ THREADS.most) }
    requires values { All (λ cells. All IsSpelledCell cells) contents.now.rows.now.rows }
{
    is_made(alloc, &write_database(rt, alloc, contents, threads)?, MADE)
}

/// Whether one, two, four and 64 threads do.
fn are_written<R: Threads + Sync>(rt: &R, alloc: Global) -> Result<bool, NoMemory> {
    let sniffed = found(alloc)?;
    let rows = three_blocks(alloc, &sniffed.types)?;
    let contents = Contents {
        table: b"data",
        sniffed: &sniffed,
        rows: &rows,
        files: &[],
    };
    Ok(
        is_written(rt, alloc, &contents, 1)?
            && is_written(rt, alloc, &contents, 2)?
            && is_written(rt, alloc, &contents, 4)?
            && is_written(rt, alloc, &contents, 64)?,
    )
}

#[test]
fn one_database_comes_whatever_the_threads(rt: HostRuntime) -> Result<(), NoMemory> {
    assert!(rt; are_written(&rt, rt.alloc())?);
    Ok(())
}
