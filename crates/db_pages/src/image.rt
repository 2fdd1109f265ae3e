// The whole file.
ghost use Rattle.std.specs.Prelude.{◌≡◌, ◌<◌, ◌^◌, length, IfOk, OnOk};
ghost use Rattle.db_pages.specs.Image.{image_over, no_table, with_table};
ghost use Rattle.db_pages.specs.Laid.{next_place};

use crate::first_page::first_page;
use crate::locks::join_pages;
use crate::number::{PAGE, number_of};
use crate::schema_table::{list_row, list_tree};
use crate::tree::Tree;
use csv_source::NoMemory;
use std::alloc::Global;
use std::marker::Model;
use text_pieces::Pieces;

/// The tables of a database file so far. After an error it may only be let go.
#[derive(Drop)]
pub struct Image {
    alloc: Global,
    len: usize,
    trees: Vec<Vec<u8>>,
    records: Vec<Vec<u8>>,
}

impl Model for Image {
    ghost use Rattle.std.specs.Prelude.{flat_map, map};
    ghost use Rattle.db_pages.specs.Image.{Imaged};

    ghost Value = { Imaged };

    ghost use Rattle.std.specs.Prelude.{◌≡◌, ◌<◌, ◌^◌, length};

    ghost view = { λ s. record { trees = flat_map (λ pages. pages.items) s.trees.items; records = map (λ row. row.items) s.records.items } };

    ghost invariant = { λ s. length (flat_map (λ pages. pages.items) s.trees.items) ≡ s.len };
}

impl Image {
    /// A file without tables.
    pub fn new(alloc: Global) -> Image
        ensures { result ≡ no_table }
    {
        Image {
            alloc,
            len: 0,
            trees: Vec::new(alloc),
            records: Vec::new(alloc),
        }
    }

    /// The place of the next page, counted from 0 without the page of the locks: the next table is written behind so many pages.
    pub fn next_place(&self) -> u64
        ensures { result ≡ next_place 1 self.now.trees }
    {
        1 + (self.len / PAGE) as u64
    }

    /// Appends a table without a copy of its pages. It has to have been written behind the pages so far.
    pub fn push(&mut self, name: &[u8], sql: &[u8], tree: Tree) -> Result<(), NoMemory>
        ensures ok { OnOk result (self.new ≡ with_table self.old name.now sql.now tree) }
    {
        let Tree {
            mut pages,
            len,
            root,
        } = tree;
        let row = list_row(self.alloc, name, sql, root)?;
        let len = self.len.checked_add(len).ok_or(NoMemory)?;
        self.records.push(row)?;
        self.trees.append(&mut pages)?;
        self.len = len;
        Ok(())
    }

    /// The file, of fewer than 2^32 pages. No page is copied but those of one piece, round its first GiB.
    pub fn finish(self) -> Result<Pieces, NoMemory>
        ensures value { IfOk result (λ text. text ≡ image_over self) }
        ensures few { IfOk result (λ text. length text < 2 ^ 44) }
    {
        let base = self.next_place();
        let Image {
            alloc,
            len: _,
            trees,
            records,
        } = self;
        let list = list_tree(alloc, base, &records)?;
        let pages = base.checked_add((list.len / PAGE) as u64).ok_or(NoMemory)?;
        let root = number_of(list.root)?;
        let first = first_page(alloc, number_of(pages - 1)?, root)?;
        let mut pieces = trees;
        let mut last = list.pages;
        pieces.append(&mut last)?;
        join_pages(alloc, first, pieces)
    }
}
