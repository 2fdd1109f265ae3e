//! Candidates, their counts and the best of them, on the two files that FORMAT.md counts, and rows that are cut.
ghost use Rattle.load_options.specs.Accepted.{IsAccepted};

use super::words::accepted;
use byte_classes::Dialect;
use csv_source::NoMemory;
use dialect_rank::{Score, best, candidates, sample_rows, score};
use load_options::Options;
use std::alloc::Global;
use std::process::Abort;

const FLIGHTS: &[u8] =
    b"FlightDate|UniqueCarrier|OriginCityName|DestCityName\n1988-01-01|AA|New York, NY|Los Angeles, CA\n1988-01-02|AA|New York, NY|Los Angeles, CA\n1988-01-03|AA|New York, NY|Los Angeles, CA\n";

const ESCAPED: &[u8] = b"\"a\\\"b\",c\n";

/// Rows, mode, agree, closed, flawed.
type Counts = [u64; 5];

fn has_counts(score: &Score, counts: Counts) -> bool {
    let of_fields = score.rows == counts[0] && score.mode == counts[1] && score.agree == counts[2];
    of_fields && score.closed == counts[3] && score.flawed == counts[4]
}

/// The scores of all candidates.
fn scores(alloc: Global, options: &Options, sample: &[u8]) -> Result<Vec<Score>, NoMemory>
    requires { IsAccepted options.now }
{
    let list = candidates(alloc, options)?;
    let mut scores = Vec::new(alloc);
    for index in 0..list.len() {
        scores.push(score(alloc, &list.get(index), sample, true, 20_480)?)?;
    }
    Ok(scores)
}

/// A file, the best of its twenty candidates, and the counts of some by their places.
struct Ranked(&'static [u8], usize, &'static [(usize, Counts)]);

const RANKED: [Ranked; 2] = [
    Ranked(
        FLIGHTS,
        5,
        &[
            (0, [4, 3, 3, 0, 0]),
            (5, [4, 4, 4, 0, 0]),
            (10, [4, 1, 4, 0, 0]),
            (15, [4, 1, 4, 0, 0]),
        ],
    ),
    Ranked(
        ESCAPED,
        1,
        &[
            (0, [1, 1, 0, 0, 1]),
            (1, [1, 2, 1, 1, 0]),
            (2, [1, 2, 1, 0, 0]),
        ],
    ),
];

fn are_ranked(scores: &[Score], row: &Ranked) -> bool {
    for (place, counts) in row.2 {
        if *place >= scores.len() || !has_counts(&scores[*place], *counts) {
            return false;
        }
    }
    scores.len() == 20 && best(scores) == row.1
}

fn is_ranked(rt: &impl Abort, alloc: Global, row: &Ranked) -> bool {
    let request = accepted(rt, alloc, "load f.csv");
    are_ranked(
        &scores(alloc, &request.options, row.0).expect(rt, "memory"),
        row,
    )
}

#[test]
fn candidates_are_counted_and_ranked(rt: HostRuntime) {
    for row in &RANKED {
        assert!(rt; is_ranked(&rt, rt.alloc(), row));
    }
}

/// A text behind which the input goes on, its counts, and the start and the end of the first sampled row.
struct Cut(&'static [u8], Counts, (usize, usize));

const CUT: [Cut; 2] = [
    Cut(b"\na,b\r\nc,d", [1, 2, 1, 0, 0], (1, 4)),
    Cut(b"\na,b", [1, 2, 1, 0, 0], (1, 4)),
];

fn is_cut(rt: &impl Abort, alloc: Global, dialect: &Dialect, row: &Cut) -> bool {
    let score = score(alloc, dialect, row.0, false, 20_480).expect(rt, "memory");
    let rows = sample_rows(alloc, dialect, row.0, false, 20_480).expect(rt, "memory");
    has_counts(&score, row.1) && rows.len() == 1 && rows.get(0) == row.2
}

#[test]
fn a_cut_row_counts_where_it_is_the_only_one(rt: HostRuntime) {
    let Ok(comma) = Dialect::new(b',', Some(b'"'), Some(b'"')) else {
        panic!(rt; "these bytes make a dialect");
    };
    for row in &CUT {
        assert!(rt; is_cut(&rt, rt.alloc(), &comma, row));
    }
}
