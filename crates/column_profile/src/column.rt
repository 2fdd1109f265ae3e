// What a profile keeps of a column.
ghost use Rattle.std.specs.Prelude.{◌≡◌, ◌<◌, [], false, length, take, All, OnErr, OnOk};
ghost use Rattle.std.specs.List.{fold};
ghost use Rattle.std.specs.Option.{option_map};
ghost use Rattle.value_types.specs.Views.{view_cells, HasRows};
ghost use Rattle.csv_writer.specs.Writable.{IsWritableRow};
ghost use Rattle.column_profile.specs.Folded.{kept_with, tally_after};
ghost use Rattle.column_profile.specs.Kept.{kept_apart, tally_in, HasSpelledSpan};
ghost use Rattle.column_profile.specs.Parts.{part_rows, rows_of, HasColumn, TakesIn};
ghost use Rattle.column_profile.specs.Profile.{cells_in};
ghost use Rattle.column_profile.specs.Tally.{tally_of};

use crate::different::Different;
use crate::lengths::{Lengths, lengths_with};
use crate::nulls::nulls_among;
use crate::parts::Part;
use crate::span::{Span, span_with};
use csv_source::NoMemory;
use std::alloc::Global;
use value_types::ColumnView;

/// What is known of the cells of a column so far. Once memory was wanting it counts for nothing.
#[derive(Drop)]
pub(crate) struct Column {
    pub(crate) nulls: u64,
    pub(crate) different: Option<Different>,
    pub(crate) span: Option<Span>,
    pub(crate) lengths: Option<Lengths>,
    pub(crate) is_wanting: bool,
}

/// Adds the values of the first cells of a column to those that are kept, if they are; too many are dropped.
fn keep_different(
    different: &mut Option<Different>,
    view: &ColumnView<'_>,
    rows: usize,
) -> Result<(), NoMemory>
    requires { HasRows rows view.now }
    ensures { OnOk result (option_map kept_apart different.new ≡ fold kept_with (option_map kept_apart different.old) (take rows (view_cells view.now))) }
{
    let Some(kept) = different else {
        return Ok(());
    };
    if kept.add_cells(view, rows)? {
        return Ok(());
    }
    *different = None;
    Ok(())
}

impl Column {
    /// Nothing is known.
    pub(crate) fn new(alloc: Global) -> Column
        ensures { tally_in result ≡ tally_of [] }
    {
        Column {
            nulls: 0,
            different: Some(Different::new(alloc)),
            span: None,
            lengths: None,
            is_wanting: false,
        }
    }

    /// Takes in the first cells of a column.
    fn take_view(&mut self, view: &ColumnView<'_>, rows: usize) -> Result<(), NoMemory>
        requires { HasRows rows view.now }
        ensures ok { OnOk result (tally_in self.new ≡ tally_after (tally_in self.old) (take rows (view_cells view.now))) }
        ensures err { OnErr result (self.new.span ≡ self.old.span) }
    {
        let Some(nulls) = self.nulls.checked_add(nulls_among(view, rows)) else {
            return Err(NoMemory);
        };
        keep_different(&mut self.different, view, rows)?;
        self.nulls = nulls;
        self.span = span_with(self.span, view, rows);
        self.lengths = lengths_with(self.lengths, view, rows);
        Ok(())
    }

    /// Takes in the cells of the column of this number, counted from 0, of a part.
    fn take_part(&mut self, part: &Part<'_>, number: usize) -> Result<(), NoMemory>
        requires within { number < length part.now.views.items }
        requires long { All (HasRows part.now.rows) part.now.views.items }
        ensures ok { OnOk result (tally_in self.new ≡ tally_after (tally_in self.old) (cells_in number (part_rows part.now))) }
        ensures err { OnErr result (self.new.span ≡ self.old.span) }
    {
        self.take_view(&part.views[number], part.rows)
    }

    /// Takes in the cells of the column of this number of some parts, or of the first of them.
    fn take_parts(&mut self, parts: &[Part<'_>], number: usize) -> Result<(), NoMemory>
        requires parts { All (HasColumn number) parts.now }
        requires writable { All IsWritableRow (rows_of parts.now) }
        requires spelled { HasSpelledSpan (tally_in self.old) }
        ensures ok { OnOk result (tally_in self.new ≡ tally_after (tally_in self.old) (cells_in number (rows_of parts.now))) }
        ensures spelled { HasSpelledSpan (tally_in self.new) }
    {
        for part in parts {
            self.take_part(part, number)?;
        }
        Ok(())
    }

    /// Takes in the cells of the column of this number, unless memory is wanting.
    pub(crate) fn take(&mut self, parts: &[Part<'_>], number: usize)
        requires parts { All (HasColumn number) parts.now }
        requires writable { All IsWritableRow (rows_of parts.now) }
        requires spelled { HasSpelledSpan (tally_in self.old) }
        ensures { TakesIn number (rows_of parts.now) self.old self.new }
    {
        if self.is_wanting {
            return;
        }
        self.is_wanting = self.take_parts(parts, number).is_err();
    }
}
