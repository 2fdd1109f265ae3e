//! Four links of the worked chain, of which three are split off.
ghost use Rattle.std.specs.Prelude.{IfOk};
ghost use Rattle.chain_words.specs.Worked.{IsReady};

use super::walker::{Answer, Turn, Walker};
use chain_words::{Chain, Front};
use csv_source::NoMemory;
use std::alloc::Global;

#[derive(Drop)]
pub struct Links {
    pub first: Walker,
    pub second: Walker,
    pub third: Walker,
    pub fourth: Walker,
}

impl Links {
    /// A new chain with its links.
    pub fn new(alloc: Global) -> Result<(Chain, Links), NoMemory>
        ensures first { IfOk result (λ made. IsReady made.0 made.1.first.link made.1.first.kept made.1.first.duty) }
        ensures second { IfOk result (λ made. IsReady made.0 made.1.second.link made.1.second.kept made.1.second.duty) }
        ensures third { IfOk result (λ made. IsReady made.0 made.1.third.link made.1.third.kept made.1.third.duty) }
        ensures fourth { IfOk result (λ made. IsReady made.0 made.1.fourth.link made.1.fourth.kept made.1.fourth.duty) }
    {
        let (chain, mut first) = Walker::first(alloc)?;
        let second = first.split(&chain);
        let third = first.split(&chain);
        let fourth = first.split(&chain);
        let links = Links {
            first,
            second,
            third,
            fourth,
        };
        Ok((chain, links))
    }

    /// What the link of this number is told in its turn.
    pub fn answer(&mut self, chain: &Chain, link: usize, turn: Turn) -> Answer
        requires first { IsReady chain.now self.old.first.link self.old.first.kept self.old.first.duty }
        requires second { IsReady chain.now self.old.second.link self.old.second.kept self.old.second.duty }
        requires third { IsReady chain.now self.old.third.link self.old.third.kept self.old.third.duty }
        requires fourth { IsReady chain.now self.old.fourth.link self.old.fourth.kept self.old.fourth.duty }
        ensures first { IsReady chain.now self.new.first.link self.new.first.kept self.new.first.duty }
        ensures second { IsReady chain.now self.new.second.link self.new.second.kept self.new.second.duty }
        ensures third { IsReady chain.now self.new.third.link self.new.third.kept self.new.third.duty }
        ensures fourth { IsReady chain.now self.new.fourth.link self.new.fourth.kept self.new.fourth.duty }
    {
        match link {
            0 => self.first.answer(chain, turn),
            1 => self.second.answer(chain, turn),
            2 => self.third.answer(chain, turn),
            _ => self.fourth.answer(chain, turn),
        }
    }

    /// The chain's front, once all duties are posted and the links are joined.
    pub fn close(self, chain: Chain) -> Front
        requires first { IsReady chain self.first.link self.first.kept self.first.duty }
        requires second { IsReady chain self.second.link self.second.kept self.second.duty }
        requires third { IsReady chain self.third.link self.third.kept self.third.duty }
        requires fourth { IsReady chain self.fourth.link self.fourth.kept self.fourth.duty }
    {
        let Links {
            mut first,
            second,
            third,
            fourth,
        } = self;
        first.finish(&chain);
        first.join(&chain, second);
        first.join(&chain, third);
        first.join(&chain, fourth);
        first.close(chain)
    }
}
