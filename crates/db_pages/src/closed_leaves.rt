// Pages that have ended.

use crate::child::Child;
use std::marker::Model;

/// Pages behind so many others, and the leaves among them.
#[derive(Drop)]
pub(crate) struct ClosedLeaves {
    pub(crate) base: u64,
    pub(crate) pages: Vec<u8>,
    pub(crate) leaves: Vec<Child>,
}

impl Model for ClosedLeaves {
    ghost use Rattle.db_pages.specs.Grown.{Grown};

    ghost Value = { Grown };

    ghost view = { λ s. record { base = s.base; pages = s.pages.items; leaves = s.leaves.items } };
}
