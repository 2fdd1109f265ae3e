//! Why a column's type isn't an earlier one.
ghost use Rattle.std.specs.Prelude.{◌≡◌, ◌++◌, [], flat_map, take, IfOk, OnOk};
ghost use Rattle.std.specs.List.{cons_option, list_any};
ghost use Rattle.value_types.specs.OfType.{is_of_type, type_number};
ghost use Rattle.csv_sniffer.specs.Whys.{why_before, why_not, whys_of};
ghost use Rattle.csv_sniffer.specs.declared.explaining.entries.Entry.{Entry};
ghost use Rattle.csv_sniffer.specs.declared.explaining.whys.TheConstants.{VALUE_LIMIT};

use crate::explaining::entries::{ColumnSample, Entry};
use csv_source::{Bytes, NoMemory};
use std::alloc::Global;
use value_types::{ColumnType, is_of_type};

/// How many bytes of a value are told.
pub const VALUE_LIMIT: usize = 60;

/// Why a column isn't of a type that some of its values fit: the first value that doesn't.
#[derive(Drop)]
pub struct Why {
    /// The column's number, from 0.
    pub column: usize,
    pub ty: ColumnType,
    /// The physical line of the file in which the value's row begins, from 1.
    pub line: u64,
    /// The value's first bytes, at most `VALUE_LIMIT`.
    pub value: Bytes,
}

/// A type's place in the order of detection.
fn type_number(ty: ColumnType) -> u8
    ensures { result ≡ type_number ty }
{
    match ty {
        ColumnType::Boolean => 0,
        ColumnType::Bigint => 1,
        ColumnType::Date => 2,
        ColumnType::Time => 3,
        ColumnType::Timestamp => 4,
        ColumnType::Varchar => 5,
    }
}

/// Whether some value can be cast to a type.
fn some_fits(entries: &[Entry], ty: ColumnType) -> bool
    ensures { result ≡ list_any (λ (e : Entry). is_of_type e.value ty) entries.now }
{
    entries
        .iter()
        .any(|entry| is_of_type(entry.value.as_slice(), ty))
}

/// The first bytes of a value.
fn front_of(alloc: Global, value: &[u8]) -> Result<Bytes, NoMemory>
    ensures { IfOk result (λ front. front ≡ take VALUE_LIMIT value.now) }
{
    if value.len() <= VALUE_LIMIT {
        return Bytes::copy_of(alloc, value);
    }
    Bytes::copy_of(alloc, &value[..VALUE_LIMIT])
}

/// Appends why a column isn't of a type, where some of its values fit it and others don't.
fn push_why_not(
    into: &mut Vec<Why>,
    alloc: Global,
    column: &ColumnSample,
    ty: ColumnType,
) -> Result<(), NoMemory>
    ensures { OnOk result (into.new.items ≡ into.old.items ++ cons_option (why_not column.now ty) []) }
{
    let entries = column.entries.as_slice();
    if !some_fits(entries, ty) {
        return Ok(());
    }
    for entry in entries {
        if !is_of_type(entry.value.as_slice(), ty) {
            let value = front_of(alloc, entry.value.as_slice())?;
            into.push(Why {
                column: column.number,
                ty,
                line: entry.line,
                value,
            })?;
            return Ok(());
        }
    }
    Ok(())
}

/// The same where detection tries the type before the one that was found.
fn push_why_before(
    into: &mut Vec<Why>,
    alloc: Global,
    column: &ColumnSample,
    ty: ColumnType,
) -> Result<(), NoMemory>
    ensures { OnOk result (into.new.items ≡ into.old.items ++ why_before column.now ty) }
{
    if type_number(ty) < type_number(column.ty) {
        return push_why_not(into, alloc, column, ty);
    }
    Ok(())
}

/// Appends why a column is of no type before its own, where that was found.
fn push_whys_of(into: &mut Vec<Why>, alloc: Global, column: &ColumnSample) -> Result<(), NoMemory>
    ensures { OnOk result (into.new.items ≡ into.old.items ++ whys_of column.now) }
{
    if !column.found {
        return Ok(());
    }
    push_why_before(into, alloc, column, ColumnType::Boolean)?;
    push_why_before(into, alloc, column, ColumnType::Bigint)?;
    push_why_before(into, alloc, column, ColumnType::Date)?;
    push_why_before(into, alloc, column, ColumnType::Time)?;
    push_why_before(into, alloc, column, ColumnType::Timestamp)?;
    push_why_before(into, alloc, column, ColumnType::Varchar)
}

/// Why columns are of no type before their own.
pub fn whys(alloc: Global, columns: &[ColumnSample]) -> Result<Vec<Why>, NoMemory>
    ensures { IfOk result (λ whys. whys.items ≡ flat_map whys_of columns.now) }
{
    let mut whys = Vec::new(alloc);
    for column in columns {
        push_whys_of(&mut whys, alloc, column)?;
    }
    Ok(whys)
}
