//! The best of some scores.
ghost use Rattle.std.specs.Prelude.{◌≡◌, ◌*◌, ◌<◌, length};
ghost use Rattle.dialect_rank.specs.Rank.{is_table, is_well_quoted, compare_shares, compare_scores, is_above, best_place};

use crate::scores::Score;
use std::cmp::Ordering;

/// Whether there are several columns, and more than half of the rows have so many.
pub(crate) fn is_table(score: &Score) -> bool
    ensures { result ≡ is_table score.now }
{
    score.mode >= 2 && u128::from(score.rows) < 2 * u128::from(score.agree)
}

/// Whether more quoted fields are closed than rows are flawed.
pub(crate) fn is_well_quoted(score: &Score) -> bool
    ensures { result ≡ is_well_quoted score.now }
{
    score.flawed < score.closed
}

/// The product, in 128 bits: so no bound on counts is asked of callers.
fn product(a: u64, b: u64) -> u128
    ensures { result ≡ a * b }
{
    u128::from(a) * u128::from(b)
}

/// Compares the shares of the rows that agree, crosswise. Without rows the share is nothing of one.
fn compare_shares(score: &Score, other: &Score) -> Ordering
    ensures { result ≡ compare_shares score.now other.now }
{
    product(score.agree, other.rows.max(1)).cmp(&product(other.agree, score.rows.max(1)))
}

/// Compares two scores by the first point in which they differ.
fn compare(score: &Score, other: &Score) -> Ordering
    ensures { result ≡ compare_scores score.now other.now }
{
    is_table(score)
        .cmp(&is_table(other))
        .then(is_well_quoted(score).cmp(&is_well_quoted(other)))
        .then(compare_shares(score, other))
        .then(score.mode.cmp(&other.mode))
}

pub(crate) fn is_above(score: &Score, other: &Score) -> bool
    ensures { result ≡ is_above score.now other.now }
{
    compare(score, other).is_gt()
}

/// The index of the best score, counted from 0, and of the earliest one among equals. The first point in which two scores
/// differ decides: whether there are at least 2 columns that more than half of the rows agree on; whether more quoted
/// fields are closed than rows are flawed; the share of the rows that agree; the number of columns.
pub fn best(scores: &[Score]) -> usize
    requires { 0 < length scores.now }
    ensures { result ≡ best_place scores.now }
{
    let mut best = 0;
    for place in 1..scores.len() {
        if is_above(&scores[place], &scores[best]) {
            best = place;
        }
    }
    best
}
