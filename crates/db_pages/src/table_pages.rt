// The pages of a table, joined.
ghost use Rattle.std.specs.Prelude.{◌≡◌, ◌++◌, [], true, map, IfOk, OnOk};
ghost use Rattle.db_pages.specs.Grown.{behind, closed, grown, holds_at, moved, tree_over, with_leaf};
ghost use Rattle.db_pages.specs.Laid.{next_place};

use crate::cells::Cells;
use crate::child::Child;
use crate::closed_leaves::ClosedLeaves;
use crate::leaves::Leaves;
use crate::levels::push_levels;
use crate::number::PAGE;
use crate::tree::Tree;
use csv_source::NoMemory;
use std::alloc::Global;
use std::marker::Model;

/// Levels above the leaves: five stand on more pages than a file has.
const LEVELS: u32 = 6;

/// Appends leaves that were written behind `from` pages and stand behind `to`.
fn push_moved(into: &mut Vec<Child>, leaves: &[Child], from: u64, to: u64) -> Result<(), NoMemory>
    ensures ok { OnOk result (into.new.items ≡ into.old.items ++ map (moved from to) leaves.now) }
{
    for child in leaves {
        let place = to
            .checked_add(child.place.saturating_sub(from))
            .ok_or(NoMemory)?;
        into.push(Child {
            place,
            last: child.last,
        })?;
    }
    Ok(())
}

/// The leaves of a table, as workers wrote them one behind another. After an error it may only be let go.
#[derive(Drop)]
pub struct TablePages {
    alloc: Global,
    base: u64,
    len: usize,
    pages: Vec<Vec<u8>>,
    leaves: Vec<Child>,
}

impl Model for TablePages {
    ghost use Rattle.std.specs.Prelude.{flat_map};
    ghost use Rattle.db_pages.specs.Grown.{Grown};

    ghost Value = { Grown };

    ghost use Rattle.std.specs.Prelude.{◌≡◌, ◌<◌, ◌+◌, ◌/◌, ◌^◌, length};

    ghost view = { λ s. record { base = s.base; pages = flat_map (λ pages. pages.items) s.pages.items; leaves = s.leaves.items } };

    ghost invariant = { λ s. (length (flat_map (λ pages. pages.items) s.pages.items) ≡ s.len) × (s.base + s.len / 4096 < 2 ^ 64) };
}

impl TablePages {
    /// No pages, behind so many of the file.
    pub fn new(alloc: Global, base: u64) -> TablePages
        ensures { result ≡ grown base 1 [] }
    {
        TablePages {
            alloc,
            base,
            len: 0,
            pages: Vec::new(alloc),
            leaves: Vec::new(alloc),
        }
    }

    /// The pages of one writer, once their last leaf has ended.
    pub fn of(alloc: Global, leaves: Leaves) -> Result<TablePages, NoMemory>
        ensures { IfOk result (λ table. table ≡ closed leaves) }
    {
        let ClosedLeaves {
            base,
            pages,
            leaves,
        } = leaves.close()?;
        let len = pages.len();
        base.checked_add((len / PAGE) as u64).ok_or(NoMemory)?;
        let mut all = Vec::new(alloc);
        all.push(pages)?;
        Ok(TablePages {
            alloc,
            base,
            len,
            pages: all,
            leaves,
        })
    }

    /// The place of the next page, counted from 0 without the page of the locks.
    pub fn next_place(&self) -> u64
        ensures { result ≡ next_place self.now.base self.now.pages }
    {
        self.base + (self.len / PAGE) as u64
    }

    /// Appends pages that have ended.
    fn push_closed(&mut self, next: ClosedLeaves) -> Result<(), NoMemory>
        ensures ok { OnOk result (self.new ≡ behind self.old next) }
    {
        let place = self.next_place();
        let ClosedLeaves {
            base,
            pages,
            leaves,
        } = next;
        let len = self.len.checked_add(pages.len()).ok_or(NoMemory)?;
        self.base.checked_add((len / PAGE) as u64).ok_or(NoMemory)?;
        push_moved(&mut self.leaves, &leaves, base, place)?;
        self.pages.push(pages)?;
        self.len = len;
        Ok(())
    }

    /// Appends pages without a copy, once their last leaf has ended.
    pub fn push(&mut self, leaves: Leaves) -> Result<(), NoMemory>
        requires holds { holds_at (next_place self.old.base self.old.pages) (closed leaves) ≡ true }
        ensures ok { OnOk result (self.new ≡ behind self.old (closed leaves)) }
    {
        self.push_closed(leaves.close()?)
    }

    /// Appends an empty leaf, where there is none.
    fn push_first_leaf(&mut self) -> Result<(), NoMemory>
        ensures ok { OnOk result (self.new ≡ with_leaf self.old) }
    {
        if !self.leaves.is_empty() {
            return Ok(());
        }
        let place = self.next_place();
        let mut page = Vec::new(self.alloc);
        Cells::new(self.alloc).push_leaf(&mut page)?;
        let mut leaves = Vec::new(self.alloc);
        leaves.push(Child { place, last: 0 })?;
        self.push_closed(ClosedLeaves {
            base: place,
            pages: page,
            leaves,
        })
    }

    /// The table: its leaves, at least one, and the pages above them.
    #[tactic(auto, unfolding(crate::specs::Grown::tree_over))]
    pub fn finish(self) -> Result<Tree, NoMemory>
        ensures { IfOk result (λ tree. tree ≡ tree_over self) }
    {
        let mut table = self;
        table.push_first_leaf()?;
        let mut above = Vec::new(table.alloc);
        let root = push_levels(
            &mut above,
            table.alloc,
            LEVELS,
            table.next_place(),
            &table.leaves,
        )?;
        let len = table.len.checked_add(above.len()).ok_or(NoMemory)?;
        let mut pages = table.pages;
        pages.push(above)?;
        Ok(Tree { pages, len, root })
    }
}
