//! The explanation of what was found in an input.
ghost use Rattle.std.specs.Prelude.{◌≡◌, ◌&&◌, not, nat_le, length, IfOk};
ghost use Rattle.load_options.specs.Accepted.{IsAccepted};
ghost use Rattle.csv_sniffer.specs.Explanation.{explanation, explanation_in};
ghost use Rattle.csv_sniffer.specs.Fixed.{fixes_types};

use crate::explaining::gathering::{FileRows, column_samples};
use crate::explaining::hints::{Hint, hints};
use crate::explaining::whys::{Why, whys};
use crate::found::Sniffed;
use crate::sample::{SAMPLE_LIMIT, sample_of};
use crate::sampled_rows::sampled_under;
use crate::start::sample_start;
use csv_source::NoMemory;
use dialect_rank::{Scored, in_rank_order, scored_candidates};
use load_options::Options;
use load_options::limits::COLUMN_LIMIT;
use std::alloc::Global;
use std::marker::Model;

/// Why a file was found to be as it is.
#[derive(Drop)]
pub struct Explanation {
    candidates: Vec<Scored>,
    fixes_types: bool,
    whys: Vec<Why>,
    hints: Vec<Hint>,
}

impl Model for Explanation {
    ghost use Rattle.csv_sniffer.specs.ExplanationView.{ExplanationView};

    ghost Value = { ExplanationView };

    ghost view = { λ e. record {
      candidates = e.candidates.items;
      fixes_types = e.fixes_types;
      whys = e.whys.items;
      hints = e.hints.items;
    } };
}

impl Explanation {
    /// All candidates with their scores, the best first.
    pub fn candidates(&self) -> &[Scored]
        ensures { result.now ≡ self.now.candidates }
    {
        &self.candidates
    }

    /// Whether the types are among the words that fix what was found.
    pub fn fixes_types(&self) -> bool
        ensures { result ≡ self.now.fixes_types }
    {
        self.fixes_types
    }

    /// Why columns are of no type before their own, column by column.
    pub fn whys(&self) -> &[Why]
        ensures { result.now ≡ self.now.whys }
    {
        &self.whys
    }

    /// Words that may be worth a try.
    pub fn hints(&self) -> &[Hint]
        ensures { result.now ≡ self.now.hints }
    {
        &self.hints
    }
}

/// Whether the types of what was found can be given as words beside the options.
fn fixes_types(options: &Options, sniffed: &Sniffed) -> bool
    ensures { result ≡ fixes_types options.now sniffed.now }
{
    !options.all_varchar
        && options.column_types.names.len() == 0
        && sniffed.types.len() <= COLUMN_LIMIT
}

/// A file's sample, and its bytes before it.
#[derive(Clone, Copy)]
struct FileSample<'a> {
    front: &'a [u8],
    sample: &'a [u8],
    whole: bool,
}

/// Explains what was found in a sample.
fn explain_sample<'a>(
    alloc: Global,
    options: &'a Options,
    file: FileSample<'a>,
    sniffed: &Sniffed,
) -> Result<Explanation, NoMemory>
    requires accepted { IsAccepted options.now }
    requires columns { length sniffed.now.names ≡ length sniffed.now.types }
    ensures { IfOk result (λ e. e ≡ explanation_in options.now file.entry.front.now file.entry.sample.now file.entry.whole sniffed.now) }
{
    let (sample, whole) = (file.sample, file.whole);
    let scored = scored_candidates(alloc, options, sample, whole)?;
    let candidates = in_rank_order(alloc, &scored)?;
    let rows = sampled_under(alloc, sniffed.dialect, sample, whole, options.sample_size)?;
    let file = FileRows {
        alloc,
        options,
        rows,
        front: file.front,
    };
    let columns = column_samples(sniffed, &file, usize::from(sniffed.header))?;
    let whys = whys(alloc, &columns)?;
    let hints = hints(alloc, options, sniffed, sample, &columns)?;
    Ok(Explanation {
        candidates,
        fixes_types: fixes_types(options, sniffed),
        whys,
        hints,
    })
}

/// Explains what was found in an input: its candidates, and what its sample says of types. Lines count from the input's
/// start. Want of memory is the only error.
pub fn explain(
    alloc: Global,
    options: &Options,
    input: &[u8],
    sniffed: &Sniffed,
) -> Result<Explanation, NoMemory>
    requires accepted { IsAccepted options.now }
    requires columns { length sniffed.now.names ≡ length sniffed.now.types }
    ensures { IfOk result (λ e. e ≡ explanation options.now input.now sniffed.now) }
{
    let start = sample_start(input, options.skip);
    let behind = &input[start..];
    let file = FileSample {
        front: &input[..start],
        sample: sample_of(behind),
        whole: behind.len() <= SAMPLE_LIMIT,
    };
    explain_sample(alloc, options, file, sniffed)
}
