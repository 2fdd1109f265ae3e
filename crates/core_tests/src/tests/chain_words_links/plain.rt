//! What four links are told, by a plain array of words and one front.

use super::walker::{Answer, RANGES, Turn, guessed, rescanned};
use chain_words::{Advance, Duty, Entry, Found, Front, Mark, Post};
use quote_automaton::State;

/// The words and the front, and of each link the difference that it keeps and its duty.
#[derive(Drop)]
pub struct PlainChain {
    words: [Found; RANGES as usize],
    pub front: Front,
    kept: [Option<Mark>; 4],
    duty: [Option<u32>; 4],
}

impl PlainChain {
    pub fn new() -> Self {
        PlainChain {
            words: [Found::Empty; RANGES as usize],
            front: Front {
                next: 0,
                state: State::RowStart,
                stopped: false,
            },
            kept: [None; 4],
            duty: [None; 4],
        }
    }

    /// What the word of a range is.
    fn found(&self, range: u32) -> Found {
        self.words
            .get(range as usize)
            .copied()
            .unwrap_or(Found::Empty)
    }

    fn put(&mut self, range: u32, found: Found) {
        if let Some(word) = self.words.get_mut(range as usize) {
            *word = found;
        }
    }

    /// What a link is told in its turn.
    pub fn answer(&mut self, link: usize, turn: Turn) -> Answer {
        let link = link % 4;
        if let Some(range) = self.duty[link] {
            let mark = rescanned(range % RANGES);
            self.put(range, Found::Reposted(mark));
            self.duty[link] = None;
            return Answer::PostedAgain(mark);
        }
        match turn {
            Turn::Post(range) => Answer::Post(self.post(guessed(range))),
            Turn::Advance => Answer::Advance(self.advance(link)),
            Turn::Take | Turn::PostAgain => match self.kept[link] {
                Some(mark) => Answer::Duty(self.take(link, mark)),
                None => Answer::Front(self.front),
            },
        }
    }

    fn post(&mut self, mark: Mark) -> Post {
        let found = self.found(mark.range);
        if found != Found::Empty {
            return Post::Held(found);
        }
        self.put(mark.range, Found::Posted(mark));
        Post::First
    }

    fn advance(&mut self, link: usize) -> Advance {
        let Front { next, state, .. } = self.front;
        if next >= RANGES {
            return Advance::Whole;
        }
        match self.found(next) {
            Found::Empty => Advance::Unposted(next),
            Found::InRescan(_) => Advance::InRescan(next),
            Found::Posted(mark) | Found::Reposted(mark) => {
                if mark.opened != state {
                    self.kept[link % 4] = Some(mark);
                    return Advance::Differs(mark, state);
                }
                self.front.next = next + 1;
                self.front.state = mark.end;
                Advance::Moved(Entry {
                    range: next,
                    state,
                    end: mark.end,
                    bad: mark.bad,
                })
            }
        }
    }

    fn take(&mut self, link: usize, mark: Mark) -> Duty {
        self.kept[link % 4] = None;
        let found = self.found(mark.range);
        if found != Found::Posted(mark) {
            return Duty::Lost(found);
        }
        self.put(mark.range, Found::InRescan(mark));
        self.duty[link % 4] = Some(mark.range);
        Duty::Won
    }
}
