// The texts of reports that have no rows.
ghost use Rattle.std.specs.Prelude.{◌≡◌, ◌++◌, false, length, IfOk, OnOk};
ghost use Rattle.report_text.specs.ExplainedLines.{explanation_lines};
ghost use Rattle.report_text.specs.Lines.{error_line};
ghost use Rattle.report_text.specs.Report.{found_lines, has_rows, report_of};
ghost use Rattle.report_text.specs.SplitLines.{split_lines};
ghost use Rattle.report_text.specs.Printable.{IsPrintable};

use crate::Outcome;
use crate::explained::push_explanation;
use crate::faults::{
    push_mismatch, push_read_fault, push_refused, push_too_large, push_too_many_faults,
};
use crate::found::push_found;
use crate::loaded::push_summary;
use crate::rejects::push_reject;
use crate::split::push_split;
use csv_sniffer::{Explanation, Sniffed};
use csv_source::NoMemory;
use part_cuts::Cuts;
use reject_book::Reject;
use std::alloc::Global;
use text_pieces::{Draft, Pieces};
use value_types::Names;

/// Appends what was found, and the first error.
fn push_first_error(into: &mut Draft, sniffed: &Sniffed, reject: &Reject) -> Result<(), NoMemory>
    requires { length sniffed.now.names ≡ length sniffed.now.types }
    ensures { OnOk result (into.new.text ≡ into.old.text ++ (found_lines sniffed.now ++ error_line reject.now)) }
{
    push_found(into, sniffed)?;
    push_reject(into, reject)
}

/// Appends what was found, and why.
fn push_explained(
    into: &mut Draft,
    alloc: Global,
    sniffed: &Sniffed,
    explanation: &Explanation,
) -> Result<(), NoMemory>
    requires { length sniffed.now.names ≡ length sniffed.now.types }
    ensures { OnOk result (into.new.text ≡ into.old.text ++ (found_lines sniffed.now ++ explanation_lines sniffed.now explanation.now)) }
{
    push_found(into, sniffed)?;
    push_explanation(into, alloc, sniffed, explanation)
}

/// Appends what was found, the words of each part, and where the parts begin.
fn push_parts(
    into: &mut Draft,
    alloc: Global,
    sniffed: &Sniffed,
    further: &Names,
    cuts: &Cuts,
) -> Result<(), NoMemory>
    requires { length sniffed.now.names ≡ length sniffed.now.types }
    ensures { OnOk result (into.new.text ≡ into.old.text ++ (found_lines sniffed.now ++ split_lines sniffed.now further.now cuts.now)) }
{
    push_found(into, sniffed)?;
    push_split(into, alloc, sniffed, further, cuts)
}

/// Appends the text of a report that has no rows.
fn push_short(into: &mut Draft, alloc: Global, outcome: &Outcome) -> Result<(), NoMemory>
    requires printable { IsPrintable outcome.now }
    requires short { has_rows outcome.now ≡ false }
    ensures { OnOk result (into.new.text ≡ into.old.text ++ report_of outcome.now) }
{
    match outcome {
        Outcome::Refused(fault, word) => push_refused(into, fault, word.as_slice()),
        Outcome::ReadFault => push_read_fault(into),
        Outcome::TooLarge(limit) => push_too_large(into, *limit),
        Outcome::Mismatch(mismatch) => push_mismatch(into, mismatch),
        Outcome::TooManyFaults(bound) => push_too_many_faults(into, *bound),
        Outcome::Sniffed(sniffed) => push_found(into, sniffed),
        Outcome::Explained(sniffed, explanation) => {
            push_explained(into, alloc, sniffed, explanation)
        }
        Outcome::Split(sniffed, further, cuts) => push_parts(into, alloc, sniffed, further, cuts),
        Outcome::Summary(loaded, taps) => push_summary(into, loaded, taps.as_slice()),
        Outcome::FirstError(sniffed, reject) => push_first_error(into, sniffed, reject),
        Outcome::Loaded(_) | Outcome::Batch(..) => unreachable!(),
    }
}

/// The text of a report that has no rows: its lines, each ended by LF.
pub fn render(alloc: Global, outcome: &Outcome) -> Result<Pieces, NoMemory>
    requires printable { IsPrintable outcome.now }
    requires short { has_rows outcome.now ≡ false }
    ensures { IfOk result (λ text. text ≡ report_of outcome.now) }
{
    let mut text = Draft::new(alloc);
    push_short(&mut text, alloc, outcome)?;
    Ok(Pieces::of(alloc, text.into_text()))
}
