//! The higher of two candidates, and those that can't be it, so that they needn't be scored.
ghost use Rattle.std.specs.Prelude.{◌≡◌, ◌&&◌, ◌==◌, false, slice_get, IfOk};
ghost use Rattle.std.specs.Option.{option_map};
ghost use Rattle.dialect_rank.specs.Rank.{is_above, is_table};
ghost use Rattle.dialect_rank.specs.Ranked.{higher, ranked_of};
ghost use Rattle.dialect_rank.specs.Sampled.{sampled_rows};
ghost use Rattle.dialect_rank.specs.Score.{field_count, score_of};

use crate::best_place::{is_above, is_table, is_well_quoted};
use crate::quote_search::lacks_quote;
use crate::ranked::{Ranked, rank};
use crate::sampling::Walk;
use crate::scores::Score;
use crate::searched_sample::SearchedSample;
use byte_classes::Dialect;
use csv_source::NoMemory;
use row_fields::Fields;
use std::alloc::Global;

/// Whether all rows agree on several columns.
fn is_perfect(score: &Score) -> bool
    ensures { result ≡ (is_table score.now && (score.now.agree == score.now.rows)) }
{
    is_table(score) && score.agree == score.rows
}

/// How many fields the first sampled row has.
fn first_count(
    alloc: Global,
    dialect: &Dialect,
    sample: &[u8],
    whole: bool,
    sample_size: u64,
) -> Result<Option<usize>, NoMemory>
    ensures { IfOk result (λ count. count ≡ option_map (field_count dialect.now) (slice_get (sampled_rows dialect.now sample.now whole sample_size) 0)) }
{
    let mut fields = Fields::new(alloc);
    let mut walk = Walk::new(sample_size);
    match walk.next(dialect, sample, whole, &mut fields)? {
        Some(row) => Ok(Some(row.shape.fields)),
        None => Ok(None),
    }
}

/// Whether a dialect's score may be above another one. It can't be where all rows of the other agree on as many columns at
/// least as its first row has, and either their quotes are closed or it has none: its rows could at best agree on fewer.
pub fn can_outrank(
    alloc: Global,
    dialect: &Dialect,
    sample: &SearchedSample<'_>,
    best: &Score,
) -> Result<bool, NoMemory>
    ensures { IfOk result (λ can. can ≡ false
        → is_above (score_of dialect.now sample.now.bytes.now sample.now.whole sample.now.sample_size) best.now ≡ false) }
{
    if !is_perfect(best) {
        return Ok(true);
    }
    if !is_well_quoted(best) && !lacks_quote(dialect, sample.bytes, sample.absent) {
        return Ok(true);
    }
    match first_count(
        alloc,
        dialect,
        sample.bytes,
        sample.whole,
        sample.sample_size,
    )? {
        Some(count) => Ok(best.mode < count as u64),
        None => Ok(true),
    }
}

/// The best dialect so far, or another one where its score is above.
pub fn higher(
    alloc: Global,
    best: Ranked,
    dialect: &Dialect,
    sample: &SearchedSample<'_>,
) -> Result<Ranked, NoMemory>
    ensures { IfOk result (λ ranked. ranked ≡ higher best (ranked_of dialect.now sample.now.bytes.now sample.now.whole sample.now.sample_size)) }
{
    let other = rank(
        alloc,
        dialect,
        sample.bytes,
        sample.whole,
        sample.sample_size,
    )?;
    if is_above(&other.score, &best.score) {
        return Ok(other);
    }
    Ok(best)
}
