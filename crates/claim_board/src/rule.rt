//! What a drawer knows, the rule of the claim word, and what each kind of step tells.

use atomic_table::{Join, Play, Split, TableRule};
use std::collections::LinkedList;

/// What a drawer knows. It is for proofs: no value of it is made.
pub struct DrawerView {
    pub count: u64,
    pub drawn: LinkedList<u64>,
    pub splits: u64,
    pub done: bool,
    pub ended: bool,
    pub steps: u64,
}

/// Each number below the word and the count was drawn by one drawer, once.
pub struct EachOnce;

impl TableRule<(), DrawerView, u64> for EachOnce {
    ghost use Rattle.claim_board.specs.Rule.{IsKept};
    ghost use Rattle.claim_board.specs.Steps.{fresh, first_splits};

    ghost holds = { λ count s. IsKept count s };

    ghost first = { λ count. fresh count first_splits };
}

/// The fetch-add of a claim.
pub struct Claiming;

impl Play<(), DrawerView> for Claiming {
    ghost use Rattle.claim_board.specs.Steps.{Claims};

    ghost then = { Claims };
}

/// A drawer is split off, or joined.
pub struct Parting;

impl Split<DrawerView> for Parting {
    ghost use Rattle.claim_board.specs.Steps.{one_fewer, newcomer};

    ghost left = { one_fewer };

    ghost right = { newcomer };
}

impl Join<DrawerView> for Parting {
    ghost use Rattle.claim_board.specs.Steps.{joined, over};

    ghost both = { joined };

    ghost spent = { over };
}
