// A table of an archive.
use column_store::Table;
use std::marker::Model;
use value_types::Names;

/// The most bytes of a column's key: with `:bytes` and `.npy` behind it, it fits the two bytes of a name's length.
pub(crate) const MOST_KEY: usize = 65_521;

/// A table, and the keys of its columns.
#[derive(Drop)]
pub(crate) struct Sheet {
    pub(crate) keys: Names,
    pub(crate) table: Table,
}

impl Model for Sheet {
    ghost use Rattle.npz_writer.specs.Sheets.{SheetView};

    ghost Value = { SheetView };

    ghost view = { λ s. record { keys = s.keys; types = s.table.types; rows = s.table.rows } };
}
