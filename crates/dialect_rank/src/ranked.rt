//! The score of a dialect over its sampled rows.
ghost use Rattle.std.specs.Prelude.{◌≡◌, ◌==◌, ◌&&◌, not, IfOk, count_by, map, sum_by};
ghost use Rattle.dialect_rank.specs.declared.shape.RowShape.{RowShape};
ghost use Rattle.dialect_rank.specs.Ranked.{ranked_of};
ghost use Rattle.dialect_rank.specs.Sampled.{sampled_rows, sampled_spans};
ghost use Rattle.dialect_rank.specs.Score.{closed_fields, score_of};
ghost use Rattle.dialect_rank.specs.Shape.{shape_of, score_in};

use crate::lists::Spans;
use crate::most_frequent::most_frequent;
use crate::sampling::Walk;
use crate::scores::Score;
use crate::shape::RowShape;
use byte_classes::Dialect;
use csv_source::NoMemory;
use row_fields::Fields;
use std::alloc::Global;

/// A dialect with its score, and the sampled rows over which it was counted.
#[derive(Drop)]
pub struct Ranked {
    pub dialect: Dialect,
    pub score: Score,
    pub spans: Spans,
}

/// The sampled rows and their shapes, and how many quoted fields they close.
#[derive(Drop)]
struct Shapes {
    rows: Vec<RowShape>,
    spans: Spans,
    closed: u64,
}

/// Reads the sampled rows once.
fn read_shapes(
    alloc: Global,
    dialect: &Dialect,
    sample: &[u8],
    whole: bool,
    sample_size: u64,
) -> Result<Shapes, NoMemory>
    ensures { let rows = sampled_rows dialect.now sample.now whole sample_size in
        IfOk result (λ shapes. (shapes.rows.items ≡ map (shape_of dialect.now) rows) × (shapes.closed ≡ sum_by (closed_fields dialect.now) rows)
        × (shapes.spans ≡ sampled_spans dialect.now sample.now whole sample_size)) }
{
    let mut fields = Fields::new(alloc);
    let mut rows = Vec::new(alloc);
    let mut spans = Spans::new(alloc);
    let mut closed: u64 = 0;
    let mut walk = Walk::new(sample_size);
    while let Some(row) = walk.next(dialect, sample, whole, &mut fields)? {
        rows.push(row.shape)?;
        spans.push((row.from, row.end))?;
        closed += row.closed as u64;
    }
    Ok(Shapes {
        rows,
        spans,
        closed,
    })
}

/// How many rows without flaw have this number of fields.
fn agreeing(rows: &[RowShape], fields: usize) -> usize
    ensures { result ≡ count_by (λ (row : RowShape). row.sound && (row.fields == fields)) rows.now }
{
    rows.iter()
        .filter(|row| row.sound && row.fields == fields)
        .count()
}

/// How many rows have a flaw.
fn flawed(rows: &[RowShape]) -> usize
    ensures { result ≡ count_by (λ (row : RowShape). not row.sound) rows.now }
{
    rows.iter().filter(|row| !row.sound).count()
}

/// The counts over some rows, of which most have this number of fields.
fn score_in(rows: &[RowShape], mode: usize, closed: u64) -> Score
    ensures { result ≡ score_in rows.now mode closed }
{
    Score {
        rows: rows.len() as u64,
        mode: mode as u64,
        agree: agreeing(rows, mode) as u64,
        closed,
        flawed: flawed(rows) as u64,
    }
}

/// A dialect with its score and its sampled rows.
pub fn rank(
    alloc: Global,
    dialect: &Dialect,
    sample: &[u8],
    whole: bool,
    sample_size: u64,
) -> Result<Ranked, NoMemory>
    ensures { IfOk result (λ ranked. ranked ≡ ranked_of dialect.now sample.now whole sample_size) }
{
    let shapes = read_shapes(alloc, dialect, sample, whole, sample_size)?;
    let mode = most_frequent(alloc, &shapes.rows)?;
    let score = score_in(&shapes.rows, mode, shapes.closed);
    let Shapes { spans, .. } = shapes;
    Ok(Ranked {
        dialect: *dialect,
        score,
        spans,
    })
}

/// The score of a dialect over the rows that `sample_rows` answers.
pub fn score(
    alloc: Global,
    dialect: &Dialect,
    sample: &[u8],
    whole: bool,
    sample_size: u64,
) -> Result<Score, NoMemory>
    ensures { IfOk result (λ score. score ≡ score_of dialect.now sample.now whole sample_size) }
{
    Ok(rank(alloc, dialect, sample, whole, sample_size)?.score)
}
