//! What the sample shows of a column: its values, with the lines in which their rows begin.
ghost use Rattle.std.specs.Prelude.{◌≡◌, ◌<◌, ◌&&◌, not, ◌++◌, ◌∷◌, [], length, slice_index_or, IfOk, OnOk};
ghost use Rattle.std.specs.Str.{bytes_eq};
ghost use Rattle.load_options.specs.Texts.{is_among};
ghost use Rattle.csv_sniffer.specs.Columns.{column_sample, is_type_found, no_samples};
ghost use Rattle.csv_sniffer.specs.declared.explaining.entries.Entry.{Entry};

use crate::found::Sniffed;
use csv_source::{Bytes, NoMemory};
use load_options::Options;
use std::alloc::Global;
use std::marker::Model;
use value_types::{ColumnType, Names};

/// A value that isn't null.
#[derive(Drop)]
pub struct Entry {
    /// The physical line of the file in which its row begins, from 1.
    pub line: u64,
    pub quoted: bool,
    pub value: Bytes,
}

/// The values of a column, in the order of their rows.
#[derive(Drop)]
pub struct Entries {
    entries: Vec<Entry>,
}

impl Model for Entries {
    ghost use Rattle.std.specs.Prelude.{List};
    ghost use Rattle.csv_sniffer.specs.declared.explaining.entries.Entry.{Entry};

    ghost Value = { List Entry };

    ghost view = { λ e. e.entries.items };
}

impl Entries {
    pub fn new(alloc: Global) -> Entries
        ensures { result ≡ [] }
    {
        Entries {
            entries: Vec::new(alloc),
        }
    }

    pub fn as_slice(&self) -> &[Entry]
        ensures { result.now ≡ self.now }
    {
        &self.entries
    }

    pub fn push(&mut self, entry: Entry) -> Result<(), NoMemory>
        ensures { OnOk result (self.new ≡ self.old ++ entry ∷ []) }
    {
        self.entries.push(entry)?;
        Ok(())
    }
}

/// A column, and its values in the sampled rows that agree.
#[derive(Drop)]
pub struct ColumnSample {
    /// The column's number, from 0.
    pub number: usize,
    pub name: Bytes,
    pub ty: ColumnType,
    /// Whether the type was found, and not given.
    pub found: bool,
    pub entries: Entries,
}

/// Whether two names are the same.
fn is_same(name: &[u8], other: &[u8]) -> bool
    ensures { result ≡ bytes_eq name.now other.now }
{
    name == other
}

/// Whether a name is among some names.
fn is_among(names: &Names, name: &[u8]) -> bool
    ensures { result ≡ is_among names.now name.now }
{
    for place in 0..names.len() {
        if is_same(name, names.get(place)) {
            return true;
        }
    }
    false
}

/// Whether the type of the column of a name is found, and not given.
fn is_type_found(options: &Options, name: &[u8]) -> bool
    ensures { result ≡ is_type_found options.now name.now }
{
    !options.all_varchar && options.types.len() == 0 && !is_among(&options.column_types.names, name)
}

/// A column without a value.
fn column_sample(
    alloc: Global,
    options: &Options,
    sniffed: &Sniffed,
    column: usize,
) -> Result<ColumnSample, NoMemory>
    requires names { column < length sniffed.now.names }
    requires types { column < length sniffed.now.types }
    ensures { IfOk result (λ sample. sample ≡ column_sample options.now sniffed.now column []) }
{
    let name = sniffed.names.get(column);
    Ok(ColumnSample {
        number: column,
        name: Bytes::copy_of(alloc, name)?,
        ty: sniffed.types.get(column),
        found: is_type_found(options, name),
        entries: Entries::new(alloc),
    })
}

/// All columns without a value.
pub fn no_samples(
    alloc: Global,
    options: &Options,
    sniffed: &Sniffed,
) -> Result<Vec<ColumnSample>, NoMemory>
    requires columns { length sniffed.now.names ≡ length sniffed.now.types }
    ensures { IfOk result (λ samples. samples.items ≡ no_samples options.now sniffed.now) }
{
    let mut samples = Vec::new(alloc);
    for column in 0..sniffed.types.len() {
        samples.push(column_sample(alloc, options, sniffed, column)?)?;
    }
    Ok(samples)
}
