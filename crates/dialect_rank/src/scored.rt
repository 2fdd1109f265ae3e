//! All candidates with their scores, for whoever wants to see why one was chosen.
ghost use Rattle.std.specs.Prelude.{◌≡◌, ◌<◌, ◌==◌, ◌++◌, filter, count_by, length, All, IfOk, OnOk};
ghost use Rattle.byte_classes.specs.Dialect.{IsDialect};
ghost use Rattle.load_options.specs.Accepted.{IsAccepted};
ghost use Rattle.dialect_rank.specs.Scored.{stands_before, standing, in_rank_order, scored_candidates, scored_from};

use crate::best_place::is_above;
use crate::candidate_list::candidates;
use crate::lists::Dialects;
use crate::ranked::score;
use crate::scores::Score;
use crate::searched_sample::SearchedSample;
use byte_classes::Dialect;
use csv_source::NoMemory;
use load_options::Options;
use std::alloc::Global;

/// A candidate with its place in the list of candidates, counted from 0, and its score.
#[derive(Clone, Copy)]
pub struct Scored {
    pub place: usize,
    pub dialect: Dialect,
    pub score: Score,
}

/// Some candidates with their scores and places. Those that read the sample alike are scored once.
fn scored_of(
    alloc: Global,
    candidates: &Dialects,
    sample: &[u8],
    whole: bool,
    sample_size: u64,
) -> Result<Vec<Scored>, NoMemory>
    requires sound { All IsDialect candidates.now }
    ensures { IfOk result (λ scored. scored.items ≡ scored_from sample.now whole sample_size 0 candidates.now) }
{
    let mut scored: Vec<Scored> = Vec::new(alloc);
    let mut searched = SearchedSample::new(sample, whole, sample_size);
    for place in 0..candidates.len() {
        let dialect = candidates.get(place);
        let alike = searched.first_alike(candidates, &dialect);
        let score = if alike < place {
            scored[alike].score
        } else {
            score(alloc, &dialect, sample, whole, sample_size)?
        };
        scored.push(Scored {
            place,
            dialect,
            score,
        })?;
    }
    Ok(scored)
}

/// All candidates with their scores, in the order of the list.
pub fn scored_candidates(
    alloc: Global,
    options: &Options,
    sample: &[u8],
    whole: bool,
) -> Result<Vec<Scored>, NoMemory>
    requires accepted { IsAccepted options.now }
    ensures { IfOk result (λ scored. scored.items ≡ scored_candidates options.now sample.now whole) }
{
    let candidates = candidates(alloc, options)?;
    scored_of(alloc, &candidates, sample, whole, options.sample_size)
}

/// Whether a candidate is the better of two: its score is above, or the scores are equal and it is the earlier one.
fn stands_before(candidate: &Scored, other: &Scored) -> bool
    ensures { result ≡ stands_before candidate.now other.now }
{
    is_above(&candidate.score, &other.score)
        || (!is_above(&other.score, &candidate.score) && candidate.place < other.place)
}

/// How many of the candidates are better than one of them.
fn standing(scored: &[Scored], candidate: &Scored) -> usize
    ensures { result ≡ standing scored.now candidate.now }
{
    scored
        .iter()
        .filter(|other| stands_before(other, candidate))
        .count()
}

/// Appends the candidate than which so many are better.
fn push_standing(into: &mut Vec<Scored>, scored: &[Scored], better: usize) -> Result<(), NoMemory>
    ensures { OnOk result (into.new.items ≡ into.old.items ++ filter (λ (c : Scored). standing scored.now c == better) scored.now) }
{
    for candidate in scored {
        if standing(scored, candidate) == better {
            into.push(*candidate)?;
        }
    }
    Ok(())
}

/// The same candidates, the best first.
pub fn in_rank_order(alloc: Global, scored: &[Scored]) -> Result<Vec<Scored>, NoMemory>
    ensures { IfOk result (λ ordered. ordered.items ≡ in_rank_order scored.now) }
{
    let mut ordered = Vec::new(alloc);
    for better in 0..scored.len() {
        push_standing(&mut ordered, scored, better)?;
    }
    Ok(ordered)
}
