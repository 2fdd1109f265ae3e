// The texts of a loaded file.
ghost use Rattle.std.specs.Prelude.{◌≡◌, ◌++◌, [], IfOk, OnOk};
ghost use Rattle.report_text.specs.Report.{closing_lines, found_lines, loaded_lines, report_of};
ghost use Rattle.report_text.specs.Printable.{IsPrintableLoad};
ghost use Rattle.report_text.specs.declared.outcome.Outcome.TheVariants as outcome;

use crate::Loaded;
use crate::found::push_found;
use crate::lines::{push_errors, push_row_count, push_stats_of};
use crate::rejects::{push_rejects, stored_count};
use crate::report_rows::ReportRows;
use csv_source::NoMemory;
use std::alloc::Global;
use text_pieces::{Draft, RowedText, Workers};

/// Appends what stands behind the lines on the rows.
fn push_closing(into: &mut Draft, loaded: &Loaded, further: &[u8]) -> Result<(), NoMemory>
    ensures { OnOk result (into.new.text ≡ into.old.text ++ closing_lines loaded.now further.now) }
{
    push_row_count(into, loaded.table.rows())?;
    push_rejects(into, loaded)?;
    push_errors(into, stored_count(loaded) as u64, loaded.book.all())?;
    into.append(further)?;
    push_stats_of(into, &loaded.stats)
}

/// Appends a loaded file with the lines of taps in place of its rows.
pub(crate) fn push_summary(into: &mut Draft, loaded: &Loaded, taps: &[u8]) -> Result<(), NoMemory>
    requires { IsPrintableLoad loaded.now }
    ensures { OnOk result (into.new.text ≡ into.old.text ++ loaded_lines loaded.now [] taps.now) }
{
    push_found(into, &loaded.sniffed)?;
    push_closing(into, loaded, taps)
}

/// What stands before and behind the rows of a loaded file.
fn texts_round(alloc: Global, loaded: &Loaded) -> Result<(Vec<u8>, Vec<u8>), NoMemory>
    requires { IsPrintableLoad loaded.now }
    ensures { IfOk result (λ both. (both.0.items ≡ found_lines loaded.now.sniffed) × (both.1.items ≡ closing_lines loaded.now [])) }
{
    let mut head = Draft::new(alloc);
    push_found(&mut head, &loaded.sniffed)?;
    let mut tail = Draft::new(alloc);
    push_closing(&mut tail, loaded, &[])?;
    Ok((head.into_text(), tail.into_text()))
}

/// The text of the report of a loaded file: its lines, each ended by LF. The rows are rendered as they are written.
pub fn render_loaded<R>(
    workers: &Workers<'_, R>,
    loaded: Loaded,
) -> Result<RowedText<ReportRows>, NoMemory>
    requires { IsPrintableLoad loaded }
    ensures { IfOk result (λ text. text ≡ report_of (outcome.Loaded loaded)) }
{
    let (head, tail) = texts_round(workers.alloc, &loaded)?;
    let rows = ReportRows::new(loaded.into_table());
    RowedText::new(workers, head, rows, tail)
}
