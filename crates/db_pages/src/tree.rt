// A table's pages.
use std::marker::Model;

/// The pages of a table, and the place of its root, counted from 0 without the page of the locks.
#[derive(Drop)]
pub struct Tree {
    pub(crate) pages: Vec<Vec<u8>>,
    pub(crate) len: usize,
    pub(crate) root: u64,
}

impl Model for Tree {
    ghost use Rattle.std.specs.Prelude.{flat_map};
    ghost use Rattle.db_pages.specs.Grown.{TreeBytes};

    ghost Value = { TreeBytes };

    ghost use Rattle.std.specs.Prelude.{◌≡◌, length};

    ghost view = { λ t. record { bytes = flat_map (λ pages. pages.items) t.pages.items; root = t.root } };

    ghost invariant = { λ t. length (flat_map (λ pages. pages.items) t.pages.items) ≡ t.len };
}
