//! Sixty-four drawers on one board in many orders, each answer beside that of a plain counter.
ghost use Rattle.std.specs.Prelude.{◌≡◌, IfOk};
ghost use Rattle.std.specs.List.{All};

use claim_board::{Board, Claim, Drawer};
use csv_source::NoMemory;
use std::alloc::Global;
use std::process::Abort;

/// How many numbers the board has.
const NUMBERS: u64 = 100;

// As many drawers are split off as may be.
fn split_off(alloc: Global, board: &Board, first: &mut Drawer) -> Result<Vec<Drawer>, NoMemory>
    requires within { first.old.board ≡ board.now }
    requires room { first.old.splits ≡ 63 }
    ensures first { first.new.board ≡ board.now }
    ensures others { IfOk result (λ made. All (λ d. d.board ≡ board.now) made.items) }
{
    let mut others = Vec::new(alloc);
    for _turn in 0..63u64 {
        others.push(board.split(first))?;
    }
    Ok(others)
}

// Whether a drawer draws what a plain counter stands at.
fn draws(board: &Board, drawer: &mut Drawer, counter: &mut u64) -> bool
    requires within { drawer.old.board ≡ board.now }
    ensures { drawer.new.board ≡ board.now }
{
    let wanted = if *counter < NUMBERS {
        Claim::Range(*counter)
    } else {
        Claim::AllDrawn
    };
    *counter = NUMBERS.min(counter.wrapping_add(1));
    board.claim(drawer) == wanted
}

// Whether the drawers, which take turns, as many and in an order as the seed names, draw as the counter does.
fn take_turns(
    board: &Board,
    first: &mut Drawer,
    others: &mut [Drawer],
    counter: &mut u64,
    seed: u64,
) -> bool
    requires first { first.old.board ≡ board.now }
    requires others { All (λ d. d.board ≡ board.now) others.old }
    ensures first { first.new.board ≡ board.now }
    ensures others { All (λ d. d.board ≡ board.now) others.new }
{
    let mut all = true;
    for turn in 0..seed % 200 {
        let number = seed.wrapping_add(turn).wrapping_mul(2_654_435_761) % (1 << 32);
        let drawer = (number / 16 % 64) as usize;
        all = if drawer < others.len() {
            draws(board, &mut others[drawer], counter) && all
        } else {
            draws(board, first, counter) && all
        };
    }
    all
}

// All drawers are joined into the first.
fn join_all(board: &Board, first: &mut Drawer, mut others: Vec<Drawer>)
    requires first { first.old.board ≡ board.now }
    requires others { All (λ d. d.board ≡ board.now) others.items }
    ensures { first.new.board ≡ board.now }
{
    while let Some(drawer) = others.pop() {
        board.join(first, drawer);
    }
}

// Whether the drawers go through one order as the counter does, and as many numbers were drawn as it tells.
fn is_plain(rt: &impl Abort, alloc: Global, seed: u64) -> bool {
    let (board, mut first) = Board::new(alloc, NUMBERS).expect(rt, "memory");
    let mut others = split_off(alloc, &board, &mut first).expect(rt, "memory");
    let mut drawn = 0;
    let all = take_turns(&board, &mut first, &mut others, &mut drawn, seed);
    join_all(&board, &mut first, others);
    board.close(first) == drawn && all
}

#[test]
fn a_thousand_orders_answer_as_a_plain_counter(rt: HostRuntime) {
    for seed in 0..1000 {
        assert!(rt; is_plain(&rt, rt.alloc(), seed), "{seed}");
    }
}

#[test]
fn draws_each_number_once(rt: HostRuntime) {
    let (board, mut drawer) = Board::new(rt.alloc(), 2).expect(&rt, "memory");
    assert!(rt; board.claim(&mut drawer) == Claim::Range(0));
    assert!(rt; board.claim(&mut drawer) == Claim::Range(1));
    assert!(rt; board.claim(&mut drawer) == Claim::AllDrawn);
    assert!(rt; board.close(drawer) == 2);
}
