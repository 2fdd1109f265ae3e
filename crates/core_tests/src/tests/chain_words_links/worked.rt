//! Two links on the worked chain, with each answer in order: one link moves the front past what the other posted again, and past
//! two ranges that were posted ahead.
ghost use Rattle.chain_words.specs.Worked.{IsReady};

use super::links::Links;
use super::walker::{Answer, Turn, guessed, rescanned};
use chain_words::{Advance, Chain, Duty, Entry, Found, Post};
use quote_automaton::State;

fn moved(range: u32, state: State, end: State) -> Answer {
    Answer::Advance(Advance::Moved(Entry {
        range,
        state,
        end,
        bad: false,
    }))
}

fn differs(range: u32, state: State) -> Answer {
    Answer::Advance(Advance::Differs(guessed(range), state))
}

const FIRST: Answer = Answer::Post(Post::First);

const WON: Answer = Answer::Duty(Duty::Won);

/// The link, 0 or 1, its turn, and what it is told.
#[derive(Clone, Copy)]
struct Told(usize, Turn, Answer);

// One link moves the front past what the other posted again.
fn first_row() -> [Told; 12] {
    let held = Answer::Post(Post::Held(Found::Posted(guessed(0))));
    let lost = Answer::Duty(Duty::Lost(Found::InRescan(guessed(1))));
    [
        Told(0, Turn::Post(0), FIRST),
        Told(0, Turn::Post(0), held),
        Told(
            0,
            Turn::Advance,
            moved(0, State::RowStart, State::FieldStart),
        ),
        Told(0, Turn::Advance, Answer::Advance(Advance::Unposted(1))),
        Told(1, Turn::Post(1), FIRST),
        Told(0, Turn::Advance, differs(1, State::FieldStart)),
        Told(1, Turn::Advance, differs(1, State::FieldStart)),
        Told(0, Turn::Take, WON),
        Told(1, Turn::Take, lost),
        Told(1, Turn::Advance, Answer::Advance(Advance::InRescan(1))),
        Told(0, Turn::PostAgain, Answer::PostedAgain(rescanned(1))),
        Told(1, Turn::Advance, moved(1, State::FieldStart, State::Plain)),
    ]
}

// One link does range 2 alone, and two ranges are posted ahead.
fn second_row() -> [Told; 10] {
    [
        Told(1, Turn::Post(2), FIRST),
        Told(1, Turn::Advance, differs(2, State::Plain)),
        Told(1, Turn::Take, WON),
        Told(1, Turn::PostAgain, Answer::PostedAgain(rescanned(2))),
        Told(1, Turn::Advance, moved(2, State::Plain, State::RowStart)),
        Told(0, Turn::Post(3), FIRST),
        Told(0, Turn::Post(4), FIRST),
        Told(
            0,
            Turn::Advance,
            moved(3, State::RowStart, State::FieldStart),
        ),
        Told(
            0,
            Turn::Advance,
            moved(4, State::FieldStart, State::RowStart),
        ),
        Told(0, Turn::Advance, Answer::Advance(Advance::Whole)),
    ]
}

/// Whether the links are told these answers, one after another.
fn are_told(chain: &Chain, links: &mut Links, row: &[Told]) -> bool
    requires first { IsReady chain.now links.old.first.link links.old.first.kept links.old.first.duty }
    requires second { IsReady chain.now links.old.second.link links.old.second.kept links.old.second.duty }
    requires third { IsReady chain.now links.old.third.link links.old.third.kept links.old.third.duty }
    requires fourth { IsReady chain.now links.old.fourth.link links.old.fourth.kept links.old.fourth.duty }
    ensures first { IsReady chain.now links.new.first.link links.new.first.kept links.new.first.duty }
    ensures second { IsReady chain.now links.new.second.link links.new.second.kept links.new.second.duty }
    ensures third { IsReady chain.now links.new.third.link links.new.third.kept links.new.third.duty }
    ensures fourth { IsReady chain.now links.new.fourth.link links.new.fourth.kept links.new.fourth.duty }
{
    for told in row {
        if links.answer(chain, told.0, told.1) != told.2 {
            return false;
        }
    }
    true
}

#[test]
fn two_links_on_five_ranges(rt: HostRuntime) {
    let (chain, mut links) = Links::new(rt.alloc()).expect(&rt, "memory");
    assert!(rt; are_told(&chain, &mut links, &first_row()));
    assert!(rt; are_told(&chain, &mut links, &second_row()));
    assert!(rt; links.close(chain).next == 5);
}
