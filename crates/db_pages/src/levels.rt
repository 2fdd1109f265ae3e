// The pages above the leaves of a table.
ghost use Rattle.std.specs.Prelude.{◌≡◌, ◌<◌, ◌≤◌, ◌+◌, ◌*◌, ◌++◌, [], ◌∷◌, length, IfOk, OnOk};
ghost use Rattle.db_pages.specs.Page.{joined};
ghost use Rattle.db_pages.specs.Levels.{dividers, grouped, last_child, level_children, level_pages, levels_pages, page_above, root_place};

use crate::cells::Cells;
use crate::child::Child;
use csv_source::NoMemory;
use std::alloc::Global;

/// How many pages are put under one above them, while there are `MANY` or more.
const GROUP: usize = 128;

/// Fewer pages than so many are put under one.
const MANY: usize = 256;

/// The last of some pages.
fn last_child(children: &[Child]) -> Child
    ensures { result ≡ last_child children.now }
{
    match children {
        [] => Child { place: 0, last: 0 },
        [child] => *child,
        [_, rest @ ..] => last_child(rest),
    }
}

/// Appends the cells of a page above others: one for each but the last.
fn push_dividers(cells: &mut Cells, first: Child, rest: &[Child]) -> Result<(), NoMemory>
    requires room { 12 + 2 * length cells.old + length (joined cells.old) + 14 * length rest.now ≤ 4096 }
    ensures ok { OnOk result (cells.new ≡ cells.old ++ dividers (first ∷ rest.now)) }
    ensures room { OnOk result (12 + 2 * length cells.new + length (joined cells.new) ≤ 4096) }
{
    match rest {
        [] => Ok(()),
        [next, more @ ..] => {
            cells.push_divider(first)?;
            push_dividers(cells, *next, more)
        }
    }
}

/// Appends the page above some others.
fn push_above(into: &mut Vec<u8>, alloc: Global, children: &[Child]) -> Result<(), NoMemory>
    requires few { length children.now < 256 }
    ensures ok { OnOk result (into.new.items ≡ into.old.items ++ page_above children.now) }
{
    let mut cells = Cells::new(alloc);
    match children {
        [] => cells.push_inner(into, 0),
        [first, rest @ ..] => {
            push_dividers(&mut cells, *first, rest)?;
            cells.push_inner(into, last_child(children).place)
        }
    }
}

/// Appends the page above a group, which stands at a place, and lists it among those of its level.
fn push_group(
    into: &mut Vec<u8>,
    alloc: Global,
    group: &[Child],
    place: u64,
    level: &mut Vec<Child>,
) -> Result<(), NoMemory>
    requires few { length group.now < 256 }
    ensures pages { OnOk result (into.new.items ≡ into.old.items ++ page_above group.now) }
    ensures level { OnOk result (level.new.items ≡ level.old.items ++ (record { place = place; last = (last_child group.now).last }) ∷ []) }
{
    push_above(into, alloc, group)?;
    level.push(Child {
        place,
        last: last_child(group).last,
    })?;
    Ok(())
}

/// Appends the pages above those of a level, from a place on, and lists them.
fn push_level(
    into: &mut Vec<u8>,
    alloc: Global,
    children: &[Child],
    first: u64,
    level: &mut Vec<Child>,
) -> Result<(), NoMemory>
    requires some { 0 < length children.now }
    ensures pages { OnOk result (into.new.items ≡ into.old.items ++ level_pages (grouped (length children.now) children.now)) }
    ensures level { OnOk result (level.new.items ≡ level.old.items ++ level_children first (grouped (length children.now) children.now)) }
{
    let mut place = first;
    let mut rest = children;
    while rest.len() >= MANY {
        let (group, behind) = rest.split_at(GROUP);
        push_group(into, alloc, group, place, level)?;
        place = place.checked_add(1).ok_or(NoMemory)?;
        rest = behind;
    }
    push_group(into, alloc, rest, place, level)
}

/// Appends the pages above those of a level, so many levels of them at most, from a place on. The root's place is the answer.
pub(crate) fn push_levels(
    into: &mut Vec<u8>,
    alloc: Global,
    levels: u32,
    place: u64,
    children: &[Child],
) -> Result<u64, NoMemory>
    ensures pages { OnOk result (into.new.items ≡ into.old.items ++ levels_pages levels place children.now) }
    ensures root { IfOk result (λ root. root ≡ root_place levels place children.now) }
{
    if levels == 0 || children.len() <= 1 {
        return Ok(last_child(children).place);
    }
    let mut level = Vec::new(alloc);
    push_level(into, alloc, children, place, &mut level)?;
    let next = place.checked_add(level.len() as u64).ok_or(NoMemory)?;
    push_levels(into, alloc, levels - 1, next, &level)
}
