//! The values of all columns are gathered in one walk over the sampled rows, so that each row is split once.
ghost use Rattle.std.specs.Prelude.{◌≡◌, ℕ, ◌+◌, ◌<◌, ◌≤◌, [], List, drop, length, slice_index_or, IfOk, OnOk};
ghost use Rattle.std.specs.List.{cons_option};
ghost use Rattle.row_fields.specs.Split.{fields_in};
ghost use Rattle.csv_sniffer.specs.Columns.{HasValues, column_samples, with_entries};
ghost use Rattle.csv_sniffer.specs.Entries.{entry_in};
ghost use Rattle.csv_sniffer.specs.LineCount.{IsCounted};
ghost use Rattle.csv_sniffer.specs.Rows.{AreRows};
ghost use Rattle.csv_sniffer.specs.declared.explaining.entries.ColumnSample.{ColumnSample};

use crate::columns::{agrees, column_value};
use crate::explaining::entries::{ColumnSample, Entry, no_samples};
use crate::explaining::line_count::LineCount;
use crate::found::Sniffed;
use crate::sampled_rows::SampledRows;
use csv_source::{Bytes, NoMemory};
use load_options::Options;
use row_fields::Fields;
use std::alloc::Global;

/// The sampled rows of a file under the options, and the file's bytes before its sample.
#[derive(Drop)]
pub struct FileRows<'a> {
    pub alloc: Global,
    pub options: &'a Options,
    pub rows: SampledRows<'a>,
    pub front: &'a [u8],
}

/// A row that was split, and the line in which it begins.
#[derive(Clone, Copy)]
struct LinedRow<'a> {
    bytes: &'a [u8],
    fields: &'a Fields,
    line: u64,
}

/// Appends the value of a column in a row, where it isn't null.
fn push_value(
    sample: &mut ColumnSample,
    alloc: Global,
    options: &Options,
    row: &LinedRow<'_>,
    column: usize,
) -> Result<(), NoMemory>
    requires fits { length row.now.bytes.now ≡ row.now.fields.now.row_len }
    ensures { OnOk result (sample.new
        ≡ with_entries sample.old (cons_option (entry_in options.now row.now.line (fields_in row.now.bytes.now row.now.fields.now) column) [])) }
{
    if column >= row.fields.count() {
        return Ok(());
    }
    match column_value(options, row.bytes, row.fields, column) {
        Some(value) => sample.entries.push(Entry {
            line: row.line,
            quoted: row.fields.quoted(column),
            value: Bytes::copy_of(alloc, value)?,
        }),
        None => Ok(()),
    }
}

/// Appends the value of each column in a row.
fn push_values(
    samples: &mut [ColumnSample],
    alloc: Global,
    options: &Options,
    row: &LinedRow<'_>,
) -> Result<(), NoMemory>
    requires fits { length row.now.bytes.now ≡ row.now.fields.now.row_len }
    ensures { OnOk result ((column : ℕ) (other : ColumnSample) → column < length samples.old →
        slice_index_or samples.new column other
        ≡ with_entries (slice_index_or samples.old column other) (cons_option (entry_in options.now row.now.line (fields_in row.now.bytes.now row.now.fields.now) column) [])) }
{
    for column in 0..samples.len() {
        push_value(&mut samples[column], alloc, options, row, column)?;
    }
    Ok(())
}

/// What serves to read one row after another.
#[derive(Drop)]
struct RowReader {
    lines: LineCount,
    fields: Fields,
}

/// Appends the values of one row more, if it agrees.
fn push_row(
    samples: &mut [ColumnSample],
    file: &FileRows,
    row: usize,
    reader: &mut RowReader,
) -> Result<(), NoMemory>
    requires rows { AreRows file.now.rows.dialect file.now.rows.sample.now file.now.rows.spans }
    requires within { row < length file.now.rows.spans }
    requires counted { IsCounted file.now.front.now file.now.rows.sample.now reader.old.lines }
    ensures counted { OnOk result (IsCounted file.now.front.now file.now.rows.sample.now reader.new.lines) }
    ensures values { let rows = file.now.rows in OnOk result ((start : List ColumnSample) (spans : List (ℕ × ℕ)) →
        HasValues file.now.options.now rows.dialect file.now.front.now rows.sample.now start spans (drop row rows.spans) samples.old →
        HasValues file.now.options.now rows.dialect file.now.front.now rows.sample.now start spans (drop (row + 1) rows.spans) samples.new) }
{
    let span = file.rows.spans.get(row);
    let bytes = file.rows.read(row, &mut reader.fields)?;
    if !agrees(&reader.fields, samples.len()) {
        return Ok(());
    }
    let line = reader.lines.line_of(file.front, file.rows.sample, span.0);
    let fields = &reader.fields;
    let row = LinedRow {
        bytes,
        fields,
        line,
    };
    push_values(samples, file.alloc, file.options, &row)?;
    Ok(())
}

/// All columns with their values in the agreeing rows from one on.
pub fn column_samples(
    sniffed: &Sniffed,
    file: &FileRows,
    first: usize,
) -> Result<Vec<ColumnSample>, NoMemory>
    requires rows { AreRows file.now.rows.dialect file.now.rows.sample.now file.now.rows.spans }
    requires columns { length sniffed.now.names ≡ length sniffed.now.types }
    requires same { file.now.rows.dialect ≡ sniffed.now.dialect }
    ensures { IfOk result (λ samples. samples.items
        ≡ column_samples file.now.options.now sniffed.now file.now.front.now file.now.rows.sample.now (drop first file.now.rows.spans)) }
{
    let mut samples = no_samples(file.alloc, file.options, sniffed)?;
    let mut reader = RowReader {
        lines: LineCount::at_start(file.front, file.rows.sample),
        fields: Fields::new(file.alloc),
    };
    for row in first..file.rows.spans.len() {
        push_row(&mut samples, file, row, &mut reader)?;
    }
    Ok(samples)
}
