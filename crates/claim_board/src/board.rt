//! The board, and the calls on it.
ghost use Rattle.std.specs.Prelude.{◌≡◌, ℕ, ◌+◌, ◌-◌, ◌<◌, ◌≤◌, true, ◌++◌, IfOk};
ghost use Rattle.std.specs.List.{All};
ghost use Rattle.claim_board.specs.Answers.{Answers};
ghost use Rattle.claim_board.specs.Rule.{times, once_below};
ghost use Rattle.claim_board.specs.Seen.{new_drawer};

use crate::claim::Claim;
use crate::drawer::Drawer;
use crate::rule::{Claiming, DrawerView, EachOnce, Parting};
use atomic_table::Table;
use csv_source::NoMemory;
use std::alloc::Global;
use std::marker::Model;

/// A board of the numbers from 0 to below its count, seen as which board it is and that count.
#[derive(Drop)]
pub struct Board {
    table: Table<(), DrawerView, u64, EachOnce, Global>,
    count: u64,
}

impl Model for Board {
    ghost use Rattle.std.specs.Prelude.{◌≡◌, ◌≤◌};
    ghost use Rattle.claim_board.specs.Seen.{BoardSeen, board_code};

    ghost Value = { BoardSeen };

    ghost coded = { board_code };

    ghost view = { λ b. record { table = b.table.shared.table_id; count = b.count } };

    ghost invariant = { λ b. (b.table.shared.table_id.words ≡ 1) × (b.table.shared.table_id.slots ≡ 0) × (b.table.shared.key ≡ b.count) × (b.count ≤ 4294967296) };
}

impl Board {
    /// A board of the numbers below `count`, with its first drawer, which may split 63 times.
    pub fn new(alloc: Global, count: u64) -> Result<(Board, Drawer), NoMemory>
        requires within { count ≤ 4294967296 }
        ensures { IfOk result (λ made. (made.0.count ≡ count) × (made.1 ≡ new_drawer made.0 0 63)) }
    {
        let (table, seat) = Table::of_words(alloc, &[0], &count)?;
        Ok((Board { table, count }, Drawer { seat, done: false }))
    }

    /// Draws the next number. It waits for nobody, and a drawer that is done takes no step.
    pub fn claim(&self, drawer: &mut Drawer) -> Claim
        requires within { drawer.old.board ≡ self.now }
        ensures { Answers drawer.old result drawer.new }
    {
        if drawer.done {
            return Claim::AllDrawn;
        }
        let shared = &self.table.shared;
        let number = shared.fetch_add::<Claiming>(&mut drawer.seat, 0, 1);
        if number < self.count {
            return Claim::Range(number);
        }
        drawer.done = true;
        Claim::AllDrawn
    }

    /// A new drawer, which may not split, from one that may.
    pub fn split(&self, drawer: &mut Drawer) -> Drawer
        requires within { drawer.old.board ≡ self.now }
        requires room { 0 < drawer.old.splits }
        ensures value { result ≡ new_drawer self.now result.number 0 }
        ensures same { drawer.new ≡ record drawer.old { splits = drawer.old.splits - 1; steps = drawer.old.steps + 1 } }
    {
        let shared = &self.table.shared;
        let seat = shared.split_seat::<Parting>(&mut drawer.seat);
        Drawer { seat, done: false }
    }

    /// Ends the other drawer, whose numbers go to this one.
    pub fn join(&self, drawer: &mut Drawer, other: Drawer)
        requires within { drawer.old.board ≡ self.now }
        requires other { other.board ≡ self.now }
        ensures { drawer.new ≡ record drawer.old { drawn = drawer.old.drawn ++ other.drawn; steps = drawer.old.steps + 1 } }
    {
        let Drawer { seat, done: _ } = other;
        let shared = &self.table.shared;
        shared.join_seat::<Parting>(&mut drawer.seat, seat);
    }

    /// How many numbers were drawn, by all drawers together.
    pub fn close(self, drawer: Drawer) -> u64
        requires within { drawer.board ≡ self }
        ensures most { result ≤ self.count }
        ensures drawn { All (λ x. x < result) drawer.drawn }
        ensures done { drawer.done ≡ true → result ≡ self.count }
        // Where no other drawer was ever made, this one drew each number below, once, and no other.
        ensures alone { drawer.splits ≡ 63 → (x : ℕ) → times x drawer.drawn ≡ once_below x result }
    {
        let Board { table, count } = self;
        let Drawer { seat, done: _ } = drawer;
        let closed = table.close_with(seat);
        let word = closed.word(0);
        closed.free();
        word.min(count)
    }
}
