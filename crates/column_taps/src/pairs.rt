// Different texts of columns.
ghost use Rattle.std.specs.Prelude.{◌≡◌, ◌<◌, ◌+◌, [], length, take, true, All, OnOk, OnErr};
ghost use Rattle.std.specs.List.{list_any, slice_index_or};
ghost use Rattle.value_types.specs.Datum.{datum_of, null, text};
ghost use Rattle.value_types.specs.Marked.{marked};
ghost use Rattle.column_taps.specs.Pairs.{is_pair, pairs_and, pairs_and_cell, pairs_with};
ghost use Rattle.column_taps.specs.KeptPairs.{pairs_in};
ghost use Rattle.column_taps.specs.TextColumns.{HasTexts, pairs_with_texts};

use crate::text_columns::TextColumn;
use csv_source::NoMemory;
use indexmap::IndexSet;
use std::alloc::Global;
use value_types::{Cell, Cells, is_marked};

/// How many places are remembered.
const PLACES: usize = 1024;

/// A column, by its number from 0, and one of its texts.
#[derive(PartialEq, Eq, Hash, Drop)]
pub(crate) struct Key {
    column: usize,
    text: Vec<u8>,
}

/// Different pairs of a column and a text, in order of first coming.
#[derive(Drop)]
pub(crate) struct KeptPairs {
    alloc: Global,
    keys: IndexSet<Key>,
    // That which is looked up: it keeps its memory, so that a text that is known costs no allocation.
    sought: Key,
    // Where pairs were found last, each at its slot. The pair that stands there is compared, so any place may be remembered.
    places: Vec<usize>,
}

/// The slot of a pair among the places, by some bytes of its text.
#[inline(always)]
fn slot_of(column: usize, text: &[u8]) -> usize
    ensures { result < 1024 }
{
    if text.is_empty() {
        return column % PLACES;
    }
    let len = text.len();
    let first = usize::from(text[0]) * 5;
    let middle = usize::from(text[len / 2]) * 37;
    let last = usize::from(text[len - 1]) * 113;
    let outside = len.wrapping_mul(17).wrapping_add(column.wrapping_mul(61));
    (first + middle + last).wrapping_add(outside) % PLACES
}

impl KeptPairs {
    pub(crate) fn new(alloc: Global) -> KeptPairs
        ensures { pairs_in result ≡ [] }
    {
        KeptPairs {
            alloc,
            keys: IndexSet::new(alloc),
            sought: Key {
                column: 0,
                text: Vec::new(alloc),
            },
            places: Vec::new(alloc),
        }
    }

    pub(crate) fn len(&self) -> usize
        ensures { result ≡ length (pairs_in self.now) }
    {
        self.keys.len()
    }

    /// Keeps the first pairs alone.
    pub(crate) fn truncate(&mut self, count: usize)
        ensures { pairs_in self.new ≡ take count (pairs_in self.old) }
    {
        self.keys.truncate(count);
    }

    /// Whether a pair stands at the place that is remembered at a slot.
    #[inline(always)]
    fn is_remembered(&self, slot: usize, column: usize, text: &[u8]) -> bool
        ensures { result ≡ true → list_any (is_pair column text.now) (pairs_in self.now) ≡ true }
    {
        let Some(place) = self.places.get(slot) else {
            return false;
        };
        match self.keys.get_index(*place) {
            Some(key) => column == key.column && text == key.text.as_slice(),
            None => false,
        }
    }

    /// Makes the places, unless they are there.
    fn make_places(&mut self) -> Result<(), NoMemory>
        ensures { pairs_in self.new ≡ pairs_in self.old }
    {
        if self.places.is_empty() {
            self.places.resize(PLACES, 0)?;
        }
        Ok(())
    }

    /// Remembers a place at a slot.
    #[inline(always)]
    fn remember(&mut self, slot: usize, place: usize)
        ensures { pairs_in self.new ≡ pairs_in self.old }
    {
        if let Some(remembered) = self.places.get_mut(slot) {
            *remembered = place;
        }
    }

    /// Appends a pair that isn't there yet.
    fn add(&mut self, column: usize, text: &[u8]) -> Result<(), NoMemory>
        ensures ok { OnOk result (pairs_in self.new ≡ pairs_and (pairs_in self.old) column text.now) }
        ensures err { OnErr result (pairs_in self.new ≡ pairs_in self.old) }
    {
        let slot = slot_of(column, text);
        if self.is_remembered(slot, column, text) {
            return Ok(());
        }
        self.make_places()?;
        self.sought.column = column;
        self.sought.text.clear();
        self.sought.text.extend_from_slice(text)?;
        let found = self.keys.get_index_of(&self.sought);
        if let Some(place) = found {
            self.remember(slot, place);
            return Ok(());
        }
        let text = text.to_vec(self.alloc)?;
        let place = self.keys.len();
        self.remember(slot, place);
        self.keys.insert(Key { column, text })?;
        Ok(())
    }

    /// Adds the pair of a cell.
    fn add_cell(&mut self, column: usize, cell: Cell<'_>) -> Result<(), NoMemory>
        ensures ok { OnOk result (pairs_in self.new ≡ pairs_and_cell column (pairs_in self.old) (datum_of cell.entry)) }
        ensures err { OnErr result (pairs_in self.new ≡ pairs_in self.old) }
    {
        match cell {
            Cell::Text(text) => self.add(column, text),
            _ => Ok(()),
        }
    }

    /// Adds the pairs of a row, or of its first cells.
    pub(crate) fn add_row(&mut self, row: &Cells) -> Result<(), NoMemory>
        ensures ok { OnOk result (pairs_in self.new ≡ pairs_with 0 (pairs_in self.old) row.now) }
        ensures kept { take (length (pairs_in self.old)) (pairs_in self.new) ≡ pairs_in self.old }
    {
        for column in 0..row.len() {
            self.add_cell(column, row.get(column))?;
        }
        Ok(())
    }

    /// Adds the pair of a row's text, unless it is null.
    fn add_text(&mut self, column: &TextColumn<'_>, row: usize) -> Result<(), NoMemory>
        requires { HasTexts (row + 1) column.now }
        ensures ok { OnOk result (pairs_in self.new ≡ pairs_and_cell column.now.place (pairs_in self.old) (slice_index_or (marked text column.now.nulls.now column.now.texts.now) row null)) }
        ensures err { OnErr result (pairs_in self.new ≡ pairs_in self.old) }
    {
        if is_marked(column.nulls, row) {
            return Ok(());
        }
        self.add(column.place, column.texts.get(row))
    }

    /// Adds the pairs that a row, counted from 0, has in columns of texts, or in the first of them.
    pub(crate) fn add_texts(
        &mut self,
        columns: &[TextColumn<'_>],
        row: usize,
    ) -> Result<(), NoMemory>
        requires { All (HasTexts (row + 1)) columns.now }
        ensures ok { OnOk result (pairs_in self.new ≡ pairs_with_texts row (pairs_in self.old) columns.now) }
        ensures kept { take (length (pairs_in self.old)) (pairs_in self.new) ≡ pairs_in self.old }
    {
        for column in columns {
            self.add_text(column, row)?;
        }
        Ok(())
    }
}
