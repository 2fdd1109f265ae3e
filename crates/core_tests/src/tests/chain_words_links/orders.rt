//! Four links on the worked chain in many orders, each answer beside that of a plain array.
ghost use Rattle.chain_words.specs.Worked.{IsReady};

use super::links::Links;
use super::plain::PlainChain;
use super::walker::{RANGES, Turn};
use chain_words::Chain;
use std::alloc::Global;
use std::process::Abort;

// What a number names.
fn turn_of(number: u64) -> Turn {
    match number % 3 {
        0 => Turn::Post((number / 64 % RANGES as u64) as u32),
        1 => Turn::Advance,
        _ => Turn::Take,
    }
}

// Whether the links answer 64 turns, in an order that the seed names, as the plain chain does.
fn agree(chain: &Chain, links: &mut Links, plain: &mut PlainChain, seed: u64) -> bool
    requires first { IsReady chain.now links.old.first.link links.old.first.kept links.old.first.duty }
    requires second { IsReady chain.now links.old.second.link links.old.second.kept links.old.second.duty }
    requires third { IsReady chain.now links.old.third.link links.old.third.kept links.old.third.duty }
    requires fourth { IsReady chain.now links.old.fourth.link links.old.fourth.kept links.old.fourth.duty }
    ensures first { IsReady chain.now links.new.first.link links.new.first.kept links.new.first.duty }
    ensures second { IsReady chain.now links.new.second.link links.new.second.kept links.new.second.duty }
    ensures third { IsReady chain.now links.new.third.link links.new.third.kept links.new.third.duty }
    ensures fourth { IsReady chain.now links.new.fourth.link links.new.fourth.kept links.new.fourth.duty }
{
    for turn in 0..64 {
        let number = seed.wrapping_add(turn).wrapping_mul(2_654_435_761) % (1 << 32);
        let link = (number / 16 % 4) as usize;
        let turn = turn_of(number);
        if links.answer(chain, link, turn) != plain.answer(link, turn) {
            return false;
        }
    }
    true
}

// Whether the links go through one order as the plain chain does, and the front is the plain one in the end.
fn is_plain(rt: &impl Abort, alloc: Global, seed: u64) -> bool {
    let (chain, mut links) = Links::new(alloc).expect(rt, "memory");
    let mut plain = PlainChain::new();
    let all = agree(&chain, &mut links, &mut plain, seed);
    links.close(chain) == plain.front && all
}

#[test]
fn a_thousand_orders_answer_as_a_plain_array(rt: HostRuntime) {
    for seed in 0..1000 {
        assert!(rt; is_plain(&rt, rt.alloc(), seed), "{seed}");
    }
}
