// A profile, and the tables that it takes in.
ghost use Rattle.std.specs.Prelude.{◌≡◌, ◌<◌, [], length, slice_get, All, IfOk, OnOk, Some};
ghost use Rattle.csv_writer.specs.Writable.{IsWritableRow};
ghost use Rattle.column_profile.specs.Kept.{tally_in, HasSpelledSpan};
ghost use Rattle.column_profile.specs.Profile.{profile_of, Continues};

use crate::column::Column;
use crate::columns::{are_whole, empty_columns, take_all, workers_for};
use crate::parts::parts_of;
use column_store::Table;
use csv_source::NoMemory;
use std::alloc::Global;
use std::marker::Model;
use std::thread::Threads;
use value_types::{ColumnType, Types};

/// What is known of the columns of some rows.
#[derive(Drop)]
pub struct Profile {
    alloc: Global,
    types: Types,
    rows: u64,
    columns: Vec<Column>,
}

impl Model for Profile {
    ghost use Rattle.std.specs.Prelude.{◌≡◌, length, map, All};
    ghost use Rattle.column_profile.specs.Kept.{tally_in, HasSpelledSpan};
    ghost use Rattle.column_profile.specs.Profile.{ProfileView};

    ghost Value = { ProfileView };

    ghost view = { λ p. record { types = p.types; rows = p.rows; tallies = map tally_in p.columns.items } };

    ghost invariant = { λ p. (length p.columns.items ≡ length p.types) × All (λ column. HasSpelledSpan (tally_in column)) p.columns.items };
}

impl Profile {
    /// The profile of no rows of these types.
    pub fn new(alloc: Global, types: &Types) -> Result<Profile, NoMemory>
        ensures { IfOk result (λ profile. profile ≡ profile_of types.now []) }
    {
        Ok(Profile {
            alloc,
            types: Types::copy_of(alloc, types)?,
            rows: 0,
            columns: empty_columns(alloc, types.len())?,
        })
    }

    /// Takes in the rows of a table, whose columns at most so many workers share. Where memory is wanting, the profile is of no
    /// use any more.
    pub fn take_in<R: Threads + Sync>(
        &mut self,
        rt: &R,
        table: &Table,
        threads: u32,
    ) -> Result<(), NoMemory>
        requires types { self.old.types ≡ table.now.types }
        requires writable { All IsWritableRow table.now.rows }
        // It is the profile of the rows before and these behind them.
        ensures { OnOk result (Continues self.old table.now.rows self.new) }
    {
        let count = table.rows();
        let Some(rows) = self.rows.checked_add(count as u64) else {
            return Err(NoMemory);
        };
        let parts = parts_of(self.alloc, table)?;
        let workers = workers_for(count, self.columns.len(), threads);
        take_all(rt, &parts, &mut self.columns, workers);
        if !are_whole(&self.columns) {
            return Err(NoMemory);
        }
        self.rows = rows;
        Ok(())
    }

    /// How many rows were taken in.
    pub fn rows(&self) -> u64
        ensures { result ≡ self.now.rows }
    {
        self.rows
    }

    /// How many columns there are.
    pub fn columns(&self) -> usize
        ensures { result ≡ length self.now.types }
    {
        self.types.len()
    }

    /// The type of a column, counted from 0.
    pub(crate) fn type_of(&self, column: usize) -> ColumnType
        requires { column < length self.now.types }
        ensures { slice_get self.now.types column ≡ Some result }
    {
        self.types.get(column)
    }

    /// What is known of a column, counted from 0.
    pub(crate) fn column(&self, column: usize) -> &Column
        requires { column < length self.now.types }
        ensures tally { slice_get self.now.tallies column ≡ Some (tally_in result.now) }
        ensures spelled { HasSpelledSpan (tally_in result.now) }
    {
        &self.columns[column]
    }
}
