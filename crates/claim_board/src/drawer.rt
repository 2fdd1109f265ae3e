//! The right to draw from a board.

use crate::rule::DrawerView;
use atomic_table::Seat;
use std::marker::Model;

/// The right to draw from a board, seen as what it knows. One thread has it.
#[derive(Drop)]
pub struct Drawer {
    pub(crate) seat: Seat<(), DrawerView>,
    pub(crate) done: bool,
}

impl Model for Drawer {
    ghost use Rattle.std.specs.Prelude.{◌≡◌, [], false};
    ghost use Rattle.claim_board.specs.Seen.{DrawerSeen, drawer_code};

    ghost Value = { DrawerSeen };

    ghost coded = { drawer_code };

    ghost view = { λ d. record {
      board = record { table = d.seat.table_id; count = d.seat.me.0.count };
      number = d.seat.id;
      drawn = d.seat.me.0.drawn;
      splits = d.seat.me.0.splits;
      done = d.seat.me.0.done;
      steps = d.seat.me.0.steps;
    } };

    ghost invariant = { λ d. (d.seat.me.1 ≡ []) × (d.seat.me.0.ended ≡ false) × (d.done ≡ d.seat.me.0.done) };
}
