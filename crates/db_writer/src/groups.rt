// Groups of blocks of rows, each written by one worker.
ghost use Rattle.std.specs.Prelude.{◌≡◌, ◌<◌, ◌≤◌, ◌%◌, ◌⊎◌, ℕ, List, [], length, slice_index_or, slice_range, true, All, IfOk, IfSome, OnOk};
ghost use Rattle.load_options.specs.declared.limits.TheConstants.{THREADS};
ghost use Rattle.csv_writer.specs.Writable.{IsWritableRow};
ghost use Rattle.value_types.specs.Datum.{Datum};
ghost use Rattle.db_pages.specs.Grown.{closed, grown, holds_at};
ghost use Rattle.db_writer.specs.Groups.{AreBlocks, HoldsRows, IsUnwritten, WritesGroup};
ghost use Rattle.db_writer.specs.Written.{records_of};

use crate::rows::write_rows;
use column_store::Table;
use csv_source::NoMemory;
use db_pages::laws::groups_join;
use db_pages::{Leaves, TablePages};
use std::alloc::Global;
use std::thread;
use std::thread::Threads;

/// So many rows begin a leaf of their own.
const BLOCK: usize = 8192;

/// The rows from `from` to before `to`, and their leaves once they are written behind so many pages.
#[derive(Drop)]
pub(crate) struct Group {
    from: usize,
    to: usize,
    base: u64,
    leaves: Option<Leaves>,
}

/// How many workers there are for so many rows: each has a block at least.
pub(crate) fn workers_for(rows: usize, threads: u32) -> usize
    requires { (1 ≤ threads) × (threads ≤ THREADS.most) }
    ensures { (1 ≤ result) × (result ≤ THREADS.most) }
{
    rows.div_ceil(BLOCK).clamp(1, threads as usize)
}

/// So many rows in as many groups as asked, of whole blocks but for the last one, to be written behind so many pages.
pub(crate) fn cut_blocks(
    alloc: Global,
    rows: usize,
    count: usize,
    base: u64,
) -> Result<Vec<Group>, NoMemory>
    requires { 0 < count }
    ensures groups { IfOk result (λ groups. AreBlocks 0 groups.items rows) }
    ensures unwritten { IfOk result (λ groups. All (IsUnwritten rows) groups.items) }
    ensures count { IfOk result (λ groups. length groups.items ≡ count) }
{
    let mut groups = Vec::new(alloc);
    let mut from = 0;
    for number in 0..count {
        let left = rows - from;
        let share = left / (count - number);
        let to = from + share.div_ceil(BLOCK).saturating_mul(BLOCK).min(left);
        groups.push(Group {
            from,
            to,
            base,
            leaves: None,
        })?;
        from = to;
    }
    Ok(groups)
}

/// Writes the rows of a group, where that isn't done.
fn write_group(alloc: Global, table: &Table, group: &mut Group)
    requires group { HoldsRows table.now.rows group.old }
    requires writable { All IsWritableRow table.now.rows }
    ensures { WritesGroup table.now.rows group.old group.new }
{
    if group.leaves.is_none() {
        group.leaves = write_rows(alloc, table, group.from, group.to, group.base).ok();
    }
}

/// Writes the rows of all groups that aren't written, each by a worker of its own.
pub(crate) fn write_groups<R: Threads + Sync>(
    rt: &R,
    alloc: Global,
    table: &Table,
    groups: &mut [Group],
)
    requires some { 0 < length groups.old }
    requires groups { All (HoldsRows table.now.rows) groups.old }
    requires writable { All IsWritableRow table.now.rows }
    ensures { (k : ℕ) (d : _) → k < length groups.old → WritesGroup table.now.rows (slice_index_or groups.old k d) (slice_index_or groups.new k d) }
{
    let workers = groups.len();
    thread::for_each_mut(
        rt,
        groups,
        workers,
        &|_, group: &mut Group|
            requires { HoldsRows table.now.rows group.old × All IsWritableRow table.now.rows }
            ensures { WritesGroup table.entry.now.rows group.old group.new }
        { write_group(alloc, table, group) },
    );
}

/// Finds where a group stands, and where the next one begins. Leaves that don't hold there are let go.
fn place_group(group: &mut Group, place: u64) -> Result<u64, NoMemory>
    ensures holds { (rows : List (List Datum)) → HoldsRows rows group.old → WritesGroup rows group.old group.new }
    ensures placed { OnOk result (IfSome group.new.leaves (λ leaves. holds_at place (closed leaves) ≡ true)) }
{
    let Some(leaves) = &group.leaves else {
        return Err(NoMemory);
    };
    let pages = leaves.next_place()?.saturating_sub(group.base);
    let next = place.checked_add(pages).ok_or(NoMemory)?;
    if !leaves.holds_at(place) {
        group.base = place;
        group.leaves = None;
    }
    Ok(next)
}

/// Finds where all groups stand, the first behind so many pages.
fn place_groups(groups: &mut [Group], base: u64) -> Result<(), NoMemory>
    ensures { (rows : List (List Datum)) (k : ℕ) (d : _) → k < length groups.old → HoldsRows rows (slice_index_or groups.old k d)
        → WritesGroup rows (slice_index_or groups.old k d) (slice_index_or groups.new k d) }
{
    let mut place = base;
    for index in 0..groups.len() {
        place = place_group(&mut groups[index], place)?;
    }
    Ok(())
}

/// Writes those groups once more, side by side again, whose leaves don't hold where they stand: a record that goes on in
/// other pages names them.
pub(crate) fn write_again<R: Threads + Sync>(
    rt: &R,
    alloc: Global,
    table: &Table,
    groups: &mut [Group],
    base: u64,
) -> Result<(), NoMemory>
    requires some { 0 < length groups.old }
    requires groups { All (HoldsRows table.now.rows) groups.old }
    requires writable { All IsWritableRow table.now.rows }
    ensures { (k : ℕ) (d : _) → k < length groups.old → WritesGroup table.now.rows (slice_index_or groups.old k d) (slice_index_or groups.new k d) }
{
    place_groups(groups, base)?;
    if groups.iter().any(|group| group.leaves.is_none()) {
        write_groups(rt, alloc, table, groups);
    }
    Ok(())
}

/// Appends a group behind the rows before it: its leaves as they were written, where they hold there, else they are written
/// once more.
fn push_group(
    alloc: Global,
    table: &Table,
    pages: &mut TablePages,
    group: Group,
) -> Result<(), NoMemory>
    requires before { pages.old ≡ grown pages.old.base 1 (records_of (slice_range table.now.rows 0 group.from)) }
    requires block { (group.from % 8192 ≡ 0) ⊎ (group.from ≡ group.to) }
    requires group { HoldsRows table.now.rows group }
    requires writable { All IsWritableRow table.now.rows }
    ensures ok { OnOk result (pages.new ≡ grown pages.old.base 1 (records_of (slice_range table.now.rows 0 group.to))) }
{
    groups_join();
    let place = pages.next_place();
    let Group {
        from,
        to,
        leaves,
        ..
    } = group;
    let Some(leaves) = leaves else {
        return Err(NoMemory);
    };
    if leaves.holds_at(place) {
        return pages.push(leaves);
    }
    let leaves = write_rows(alloc, table, from, to, place)?;
    pages.push(leaves)
}

/// Appends groups in order, where all were written.
pub(crate) fn push_groups(
    alloc: Global,
    table: &Table,
    pages: &mut TablePages,
    groups: Vec<Group>,
) -> Result<(), NoMemory>
    requires none { pages.old ≡ grown pages.old.base 1 [] }
    requires blocks { AreBlocks 0 groups.items (length table.now.rows) }
    requires groups { All (HoldsRows table.now.rows) groups.items }
    requires writable { All IsWritableRow table.now.rows }
    ensures ok { OnOk result (pages.new ≡ grown pages.old.base 1 (records_of table.now.rows)) }
{
    for group in groups {
        push_group(alloc, table, pages, group)?;
    }
    Ok(())
}
