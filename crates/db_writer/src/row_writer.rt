// Rows on their way into pages.
ghost use Rattle.std.specs.Prelude.{◌≡◌, ◌<◌, ◌∷◌, [], if◌then◌else◌, length, pos, OnOk};
ghost use Rattle.sqlite_value.specs.declared.value.Value.TheVariants as stored;
ghost use Rattle.value_types.specs.Spelled.{IsSpelled, IsSpelledCell};
ghost use Rattle.std.specs.Str.{is_utf8};
ghost use Rattle.value_types.specs.ValueText.{value_text};
ghost use Rattle.value_types.specs.Datum.{datum_of};
ghost use Rattle.db_records.specs.Record.{IsWritable, record_of};
ghost use Rattle.db_writer.specs.Stored.{stored_cell, stored_value, text_or_blob};
ghost use Rattle.db_writer.specs.Written.{nothing_written, with_laid_row, with_records, with_value};

use column_store::Chunk;
use csv_source::NoMemory;
use db_pages::Leaves;
use db_records::{
    push_blob, push_integer, push_null, push_printed, push_record, push_text, push_truth,
};
use std::alloc::Global;
use std::marker::Model;
use text_pieces::Draft;
use value_types::{Cell, Value};

/// About how many bytes a cell takes in a leaf.
const CELL_ROOM: usize = 16;

/// From so many bytes of types on a record is put together before it is laid out.
const FEW_TYPES: usize = 127;

/// A record of fewer bytes of types and values than so many stays whole in its cell.
const MOST_WHOLE: usize = 4061;

/// The rows of a table that are laid out in leaves, the rowid of the next one, and its values so far, in memory that is used
/// again for each row. After an error it may only be let go.
#[derive(Drop)]
pub(crate) struct RowWriter {
    leaves: Leaves,
    next: u64,
    types: Draft,
    body: Draft,
    bytes: Draft,
}

impl Model for RowWriter {
    ghost use Rattle.db_writer.specs.Written.{Written};

    ghost Value = { Written };

    ghost view = { λ w. record { rows = w.leaves; next = w.next; values = record { types = w.types.text; body = w.body.text } } };
}

/// Whether bytes are UTF-8.
fn is_utf8(bytes: &[u8]) -> bool
    ensures { result ≡ is_utf8 bytes.now }
{
    std::str::from_utf8(bytes).is_ok()
}

impl RowWriter {
    /// No rows, behind so many pages, the first under a rowid.
    pub(crate) fn new(alloc: Global, base: u64, first: u64) -> RowWriter
        ensures { result ≡ nothing_written base first }
    {
        RowWriter {
            leaves: Leaves::new(alloc, base),
            next: first,
            types: Draft::new(alloc),
            body: Draft::new(alloc),
            bytes: Draft::new(alloc),
        }
    }

    /// Makes room for the leaves of about so many cells more.
    pub(crate) fn reserve(&mut self, cells: usize)
        ensures { self.new ≡ self.old }
    {
        self.leaves.reserve(cells.saturating_mul(CELL_ROOM));
    }

    /// Makes room for the values of a row to come, and fetches its cells.
    #[inline(always)]
    pub(crate) fn make_room(&mut self, chunk: &Chunk, row: usize)
        requires { row < length chunk.now.rows }
        ensures { self.new ≡ self.old }
    {
        self.body.reserve(chunk.coming_room(row));
    }

    /// Appends NULL.
    #[inline(always)]
    pub(crate) fn push_null(&mut self) -> Result<(), NoMemory>
        ensures ok { OnOk result (self.new ≡ with_value self.old stored.Null) }
    {
        push_null(&mut self.types)
    }

    /// Appends a number.
    #[inline(always)]
    pub(crate) fn push_integer(&mut self, number: i64) -> Result<(), NoMemory>
        ensures ok { OnOk result (self.new ≡ with_value self.old (stored.Int number)) }
    {
        push_integer(&mut self.types, &mut self.body, number)
    }

    /// Appends a truth, as 0 or 1.
    #[inline(always)]
    fn push_truth(&mut self, truth: bool) -> Result<(), NoMemory>
        ensures ok { OnOk result (self.new ≡ with_value self.old (stored.Int (if truth then pos 1 else pos 0))) }
    {
        push_truth(&mut self.types, truth)
    }

    /// Appends a number. One of 2^63 and more isn't counted.
    pub(crate) fn push_count(&mut self, count: u64) -> Result<(), NoMemory>
        ensures ok { OnOk result (self.new ≡ with_value self.old (stored.Int (pos count))) }
        ensures counted { OnOk result (IsWritable (stored.Int (pos count))) }
    {
        match i64::try_from(count) {
            Ok(number) => self.push_integer(number),
            Err(_) => Err(NoMemory),
        }
    }

    /// Appends a text.
    #[inline(always)]
    pub(crate) fn push_text(&mut self, text: &[u8]) -> Result<(), NoMemory>
        ensures ok { OnOk result (self.new ≡ with_value self.old (stored.Text text.now)) }
    {
        push_text(&mut self.types, &mut self.body, text)
    }

    /// Appends a text where the bytes are UTF-8, else a blob.
    pub(crate) fn push_bytes(&mut self, bytes: &[u8]) -> Result<(), NoMemory>
        ensures ok { OnOk result (self.new ≡ with_value self.old (text_or_blob bytes.now)) }
    {
        if is_utf8(bytes) {
            self.push_text(bytes)
        } else {
            push_blob(&mut self.types, &mut self.body, bytes)
        }
    }

    /// Appends a value as its text.
    #[inline(always)]
    fn push_printed(&mut self, value: Value) -> Result<(), NoMemory>
        requires { IsSpelled value }
        ensures ok { OnOk result (self.new ≡ with_value self.old (stored.Text (value_text value))) }
    {
        push_printed(&mut self.types, &mut self.body, &value)
    }

    /// Appends a value of a column: a date or a time as its text.
    #[inline(always)]
    fn push_value(&mut self, value: Value) -> Result<(), NoMemory>
        requires { IsSpelled value }
        ensures ok { OnOk result (self.new ≡ with_value self.old (stored_value value)) }
    {
        match value {
            Value::Bool(truth) => self.push_truth(truth),
            Value::Int(number) => self.push_integer(number),
            Value::Date(_) => self.push_printed(value),
            Value::Time(_) => self.push_printed(value),
            Value::Stamp(_) => self.push_printed(value),
        }
    }

    /// Appends a cell of a table.
    #[inline(always)]
    pub(crate) fn push_cell(&mut self, cell: Cell<'_>) -> Result<(), NoMemory>
        requires { IsSpelledCell (datum_of cell) }
        ensures ok { OnOk result (self.new ≡ with_value self.old (stored_cell (datum_of cell.entry))) }
    {
        match cell {
            Cell::Null => self.push_null(),
            Cell::Value(value) => self.push_value(value),
            Cell::Text(text) => self.push_text(text),
        }
    }

    /// Lays out the row under way. A record of few types that stays whole is put together in its leaf alone.
    #[inline(always)]
    fn lay_row(&mut self) -> Result<(), NoMemory>
        ensures ok { OnOk result (self.new ≡ with_laid_row self.old) }
    {
        if self.types.len() < FEW_TYPES && self.body.len() < MOST_WHOLE - self.types.len() {
            return self.leaves.push_values(self.next, &self.types, &self.body);
        }
        self.bytes.truncate(0);
        push_record(&mut self.bytes, &self.types, &self.body)?;
        self.leaves.push(self.next, self.bytes.as_slice())
    }

    /// Ends the row under way. More rows than can be counted aren't taken.
    #[inline(always)]
    pub(crate) fn end_row(&mut self) -> Result<(), NoMemory>
        ensures ok { OnOk result (self.new ≡ with_records self.old (record_of self.old.values.types self.old.values.body ∷ [])) }
    {
        self.lay_row()?;
        self.types.truncate(0);
        self.body.truncate(0);
        self.next = self.next.checked_add(1).ok_or(NoMemory)?;
        Ok(())
    }

    /// The rows.
    pub(crate) fn into_leaves(self) -> Leaves
        ensures { result ≡ self.rows }
    {
        self.leaves
    }
}
