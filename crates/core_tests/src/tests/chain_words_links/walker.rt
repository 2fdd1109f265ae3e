//! A link of the worked chain, with what a test keeps of its answers.
ghost use Rattle.std.specs.Prelude.{◌≡◌, ◌<◌, false, None, IfOk};
ghost use Rattle.chain_words.specs.Marks.{IsGuessedMark, IsTrueMark};
ghost use Rattle.chain_words.specs.Worked.{worked_plan, IsReady};

use chain_words::{Advance, Chain, Duty, Front, Link, Mark, Plan, Post};
use csv_source::NoMemory;
use quote_automaton::State;
use std::alloc::Global;

/// How many ranges the worked plan has.
pub const RANGES: u32 = 5;

/// The plan of `x,5"y` LF `1,2` LF in ranges of two bytes.
pub struct WorkedPlan;

impl Plan for WorkedPlan {
    ghost use Rattle.chain_words.specs.Worked.{worked_plan};

    ghost plan = { λ _. worked_plan };
}

fn mark(range: u32, opened: State, end: State) -> Mark
    ensures { result ≡ record { range = range; opened = opened; end = end; bad = false } }
{
    Mark {
        range,
        opened,
        end,
        bad: false,
    }
}

/// The mark of a range in its guess.
pub fn guessed(range: u32) -> Mark
    ensures { IsGuessedMark worked_plan result }
{
    match range {
        0 => mark(0, State::RowStart, State::FieldStart),
        1 => mark(1, State::Quoted, State::QuoteSeen),
        2 => mark(2, State::QuoteSeen, State::RowStart),
        3 => mark(3, State::RowStart, State::FieldStart),
        _ => mark(4, State::FieldStart, State::RowStart),
    }
}

/// The mark of a range in its true state.
pub fn rescanned(range: u32) -> Mark
    requires within { range < 5 }
    ensures value { IsTrueMark worked_plan result }
    ensures range { result.range ≡ range }
{
    match range {
        0 => mark(0, State::RowStart, State::FieldStart),
        1 => mark(1, State::FieldStart, State::Plain),
        2 => mark(2, State::Plain, State::RowStart),
        3 => mark(3, State::RowStart, State::FieldStart),
        _ => mark(4, State::FieldStart, State::RowStart),
    }
}

/// What a link does next.
#[derive(Clone, Copy, Debug)]
pub enum Turn {
    /// It posts this range in its guess.
    Post(u32),
    /// It advances, and keeps the difference that it is told.
    Advance,
    /// It takes the duty of the difference that it keeps, and forgets it; where it keeps none it looks.
    Take,
    /// It posts the range of its duty again.
    PostAgain,
}

/// What a link was told.
#[derive(Clone, Copy, Debug, PartialEq, Eq)]
pub enum Answer {
    Post(Post),
    Advance(Advance),
    Duty(Duty),
    Front(Front),
    PostedAgain(Mark),
}

/// A link, the last difference that it was told, and its duty.
#[derive(Drop)]
pub struct Walker {
    pub link: Link,
    pub kept: Option<(Mark, State)>,
    pub duty: Option<u32>,
}

impl Walker {
    /// The first link of a new chain over the worked plan.
    pub fn first(alloc: Global) -> Result<(Chain, Walker), NoMemory>
        ensures { IfOk result (λ made. IsReady made.0 made.1.link made.1.kept made.1.duty) }
    {
        let (chain, link) = Chain::new(alloc, &WorkedPlan, RANGES, State::RowStart, false)?;
        Ok((chain, Walker::new(link)))
    }

    fn new(link: Link) -> Walker
        ensures { result ≡ record { link = link; kept = None; duty = None } }
    {
        Walker {
            link,
            kept: None,
            duty: None,
        }
    }

    pub fn split(&mut self, chain: &Chain) -> Walker
        requires ready { IsReady chain.now self.old.link self.old.kept self.old.duty }
        ensures value { IsReady chain.now result.link result.kept result.duty }
        ensures ready { IsReady chain.now self.new.link self.new.kept self.new.duty }
    {
        Walker::new(chain.split(&mut self.link))
    }

    /// What the link is told in its turn. With a duty it only posts again.
    pub fn answer(&mut self, chain: &Chain, turn: Turn) -> Answer
        requires ready { IsReady chain.now self.old.link self.old.kept self.old.duty }
        ensures { IsReady chain.now self.new.link self.new.kept self.new.duty }
    {
        if let Some(range) = self.duty {
            return Answer::PostedAgain(self.repost(chain, range));
        }
        match turn {
            Turn::Post(range) => Answer::Post(self.post(chain, range)),
            Turn::Advance => Answer::Advance(self.advance(chain)),
            Turn::Take | Turn::PostAgain => match self.kept {
                Some((mark, state)) => Answer::Duty(self.take(chain, mark, state)),
                None => Answer::Front(self.look(chain)),
            },
        }
    }

    fn post(&mut self, chain: &Chain, range: u32) -> Post
        requires ready { IsReady chain.now self.old.link self.old.kept self.old.duty }
        ensures { IsReady chain.now self.new.link self.new.kept self.new.duty }
    {
        chain.post(&mut self.link, guessed(range))
    }

    fn look(&mut self, chain: &Chain) -> Front
        requires ready { IsReady chain.now self.old.link self.old.kept self.old.duty }
        ensures { IsReady chain.now self.new.link self.new.kept self.new.duty }
    {
        chain.look(&mut self.link)
    }

    fn advance(&mut self, chain: &Chain) -> Advance
        requires ready { IsReady chain.now self.old.link self.old.kept self.old.duty }
        ensures { IsReady chain.now self.new.link self.new.kept self.new.duty }
    {
        let answer = chain.advance(&mut self.link);
        if let Advance::Differs(mark, state) = answer {
            self.kept = Some((mark, state));
        }
        answer
    }

    fn take(&mut self, chain: &Chain, mark: Mark, state: State) -> Duty
        requires idle { self.old.duty ≡ None }
        requires kept { self.old.kept ≡ Some (mark, state) }
        requires ready { IsReady chain.now self.old.link self.old.kept self.old.duty }
        ensures { IsReady chain.now self.new.link self.new.kept self.new.duty }
    {
        self.kept = None;
        let answer = chain.take_duty(&mut self.link, mark, state);
        if let Duty::Won = answer {
            self.duty = Some(mark.range);
        }
        answer
    }

    fn repost(&mut self, chain: &Chain, range: u32) -> Mark
        requires duty { self.old.duty ≡ Some range }
        requires ready { IsReady chain.now self.old.link self.old.kept self.old.duty }
        ensures ready { IsReady chain.now self.new.link self.new.kept self.new.duty }
        ensures idle { self.new.duty ≡ None }
    {
        self.duty = None;
        let mark = rescanned(range);
        chain.repost(&mut self.link, mark);
        mark
    }

    /// Posts the duty, if there is one.
    pub fn finish(&mut self, chain: &Chain)
        requires ready { IsReady chain.now self.old.link self.old.kept self.old.duty }
        ensures ready { IsReady chain.now self.new.link self.new.kept self.new.duty }
        ensures idle { self.new.duty ≡ None }
    {
        if let Some(range) = self.duty {
            self.repost(chain, range);
        }
    }

    /// Takes in another link, whose duty is posted.
    pub fn join(&mut self, chain: &Chain, mut other: Walker)
        requires ready { IsReady chain.now self.old.link self.old.kept self.old.duty }
        requires idle { self.old.duty ≡ None }
        requires other { IsReady chain.now other.link other.kept other.duty }
        ensures ready { IsReady chain.now self.new.link self.new.kept self.new.duty }
        ensures idle { self.new.duty ≡ None }
    {
        other.finish(chain);
        let Walker {
            link,
            kept: _,
            duty: _,
        } = other;
        chain.join(&mut self.link, link);
    }

    /// The chain's front at the end.
    pub fn close(self, chain: Chain) -> Front
        requires ready { IsReady chain self.link self.kept self.duty }
        requires idle { self.duty ≡ None }
    {
        let Walker {
            link,
            kept: _,
            duty: _,
        } = self;
        chain.close(link)
    }
}
