// The columns of a profile, which workers share.
ghost use Rattle.std.specs.Prelude.{◌≡◌, ◌<◌, ℕ, [], true, false, length, map, slice_index_or, All, IfOk};
ghost use Rattle.std.specs.List.{range_with_len};
ghost use Rattle.csv_writer.specs.Writable.{IsWritableRow};
ghost use Rattle.column_profile.specs.Kept.{tally_in, HasSpelledSpan};
ghost use Rattle.column_profile.specs.Parts.{rows_of, HasColumn, IsPart, TakesIn};
ghost use Rattle.column_profile.specs.Profile.{cells_in};
ghost use Rattle.column_profile.specs.Tally.{tally_of};

use crate::column::Column;
use crate::parts::Part;
use csv_source::NoMemory;
use std::alloc::Global;
use std::thread;
use std::thread::Threads;

/// One worker takes in so many cells sooner than a thread is started.
const FEW_CELLS: usize = 65_536;

/// So many columns of which nothing is known.
pub(crate) fn empty_columns(alloc: Global, count: usize) -> Result<Vec<Column>, NoMemory>
    ensures { IfOk result (λ columns. map tally_in columns.items ≡ map (λ column. tally_of (cells_in column [])) (range_with_len 0 count)) }
{
    let mut columns = Vec::new(alloc);
    for _number in 0..count {
        let column = Column::new(alloc);
        columns.push(column)?;
    }
    Ok(columns)
}

/// How many workers share columns of so many rows.
pub(crate) fn workers_for(rows: usize, columns: usize, threads: u32) -> usize
    ensures { 0 < result }
{
    if rows.saturating_mul(columns) <= FEW_CELLS {
        return 1;
    }
    columns.clamp(1, (threads as usize).max(1))
}

/// Each column takes in its cells of some parts. With one worker no thread is started.
pub(crate) fn take_all<R: Threads + Sync>(
    rt: &R,
    parts: &[Part<'_>],
    columns: &mut [Column],
    workers: usize,
)
    requires some { 0 < workers }
    requires parts { All (IsPart (length columns.old)) parts.now }
    requires writable { All IsWritableRow (rows_of parts.now) }
    requires spelled { All (λ column. HasSpelledSpan (tally_in column)) columns.old }
    ensures { (k : ℕ) (d : _) → k < length columns.old → TakesIn k (rows_of parts.now) (slice_index_or columns.old k d) (slice_index_or columns.new k d) }
{
    thread::for_each_mut(
        rt,
        columns,
        workers,
        &|number, column: &mut Column|
            requires { All (HasColumn number) parts.now × All IsWritableRow (rows_of parts.now) × HasSpelledSpan (tally_in column.old) }
            ensures { TakesIn number (rows_of parts.entry.now) column.old column.new }
        { column.take(parts, number) },
    );
}

/// Whether memory was wanting for none.
pub(crate) fn are_whole(columns: &[Column]) -> bool
    ensures { result ≡ true → All (λ column. column.is_wanting ≡ false) columns.now }
{
    columns.iter().all(|column| !column.is_wanting)
}
