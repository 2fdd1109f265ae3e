// The text of several loaded files.
ghost use Rattle.std.specs.Prelude.{◌≡◌, ◌+◌, ◌++◌, IfOk, OnOk};
ghost use Rattle.report_text.specs.BatchReport.{all_in, scan_lines, scans_from, stored_in};
ghost use Rattle.report_text.specs.Printable.{IsPrintableBatch};
ghost use Rattle.report_text.specs.Report.{batch_closing, report_of};
ghost use Rattle.report_text.specs.declared.outcome.Outcome.TheVariants as outcome;

use crate::Stats;
use crate::found::push_found;
use crate::lines::{push_errors, push_row_count, push_stats_of};
use crate::rejects::{push_scan, push_stored};
use crate::report_rows::ReportRows;
use csv_sniffer::Sniffed;
use csv_source::NoMemory;
use file_list::Batch;
use text_pieces::{Draft, RowedText, Workers};

/// Appends the scan and the stored rejects of each file, in order.
fn push_scans(into: &mut Draft, sniffed: &Sniffed, batch: &Batch) -> Result<(), NoMemory>
    ensures { OnOk result (into.new.text ≡ into.old.text ++ scans_from sniffed.now 0 batch.now.files) }
{
    for index in 0..batch.len() {
        push_scan(into, sniffed, index as u64, batch.file(index))?;
        push_stored(into, batch.book(index))?;
    }
    Ok(())
}

/// Appends the scans, where rejects are stored.
fn push_scans_if(
    into: &mut Draft,
    sniffed: &Sniffed,
    store: bool,
    batch: &Batch,
) -> Result<(), NoMemory>
    ensures { OnOk result (into.new.text ≡ into.old.text ++ scan_lines sniffed.now store batch.now.files) }
{
    if !store {
        return Ok(());
    }
    push_scans(into, sniffed, batch)
}

/// A sum. What can't be counted counts as want of memory.
fn sum_of(a: u64, b: u64) -> Result<u64, NoMemory>
    ensures ok { IfOk result (λ sum. sum ≡ a + b) }
{
    a.checked_add(b).ok_or(NoMemory)
}

/// How many rejects are printed.
fn stored_in(store: bool, batch: &Batch) -> Result<u64, NoMemory>
    ensures { IfOk result (λ count. count ≡ stored_in store batch.now.files) }
{
    if !store {
        return Ok(0);
    }
    let mut count = 0;
    for index in 0..batch.len() {
        count = sum_of(count, batch.book(index).len() as u64)?;
    }
    Ok(count)
}

/// How many rejects came. What can't be counted counts as want of memory.
pub fn all_in(batch: &Batch) -> Result<u64, NoMemory>
    ensures { IfOk result (λ count. count ≡ all_in batch.now.files) }
{
    let mut count = 0;
    for index in 0..batch.len() {
        count = sum_of(count, batch.book(index).all())?;
    }
    Ok(count)
}

/// What is reported of several loaded files, under what was found in the first one; of their rejects, whether those that
/// are stored are printed.
#[derive(Clone, Copy)]
struct BatchReport<'a> {
    sniffed: &'a Sniffed,
    batch: &'a Batch,
    store: bool,
    stats: &'a Option<Stats>,
}

/// Appends what stands behind the rows of several loaded files.
fn push_batch_closing(into: &mut Draft, report: &BatchReport<'_>) -> Result<(), NoMemory>
    ensures { let closing = batch_closing report.now.sniffed.now report.now.batch.now report.now.store report.now.stats.now in
        OnOk result (into.new.text ≡ into.old.text ++ closing) }
{
    let batch = report.batch;
    push_row_count(into, batch.table().rows())?;
    push_scans_if(into, report.sniffed, report.store, batch)?;
    push_errors(into, stored_in(report.store, batch)?, all_in(batch)?)?;
    push_stats_of(into, report.stats)
}

/// The text of the report of several loaded files, under what was found in the first one: its lines, each ended by LF. The rows
/// are rendered as they are written.
pub fn render_batch<R>(
    workers: &Workers<'_, R>,
    sniffed: &Sniffed,
    batch: Batch,
    store: bool,
    stats: Option<Stats>,
) -> Result<RowedText<ReportRows>, NoMemory>
    requires { IsPrintableBatch sniffed.now batch }
    ensures { IfOk result (λ text. text ≡ report_of (outcome.Batch sniffed.now batch store stats)) }
{
    let mut head = Draft::new(workers.alloc);
    push_found(&mut head, sniffed)?;
    let report = BatchReport {
        sniffed,
        batch: &batch,
        store,
        stats: &stats,
    };
    let mut tail = Draft::new(workers.alloc);
    push_batch_closing(&mut tail, &report)?;
    let rows = ReportRows::new(batch.into_table());
    RowedText::new(workers, head.into_text(), rows, tail.into_text())
}
