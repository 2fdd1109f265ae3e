//! The names of columns, made different.
ghost use Rattle.std.specs.Prelude.{◌≡◌, ◌<◌, ◌^◌, true, IfOk, OnOk, IfSome, length};
ghost use Rattle.std.specs.Option.{option_copied};
ghost use Rattle.byte_classes.specs.Dialect.{Marks};
ghost use Rattle.row_fields.specs.Split.{IsSplit};
ghost use Rattle.csv_sniffer.specs.ColumnNames.{with_number, is_key, first_free, NumbersAreTaken, detected_names};
ghost use Rattle.csv_sniffer.specs.Rows.{AreRows, row_texts};
ghost use Rattle.csv_sniffer.specs.Sniffed.{first_if};

use crate::sampled_rows::SampledRows;
use crate::wanted_names::wanted_name;
use csv_source::NoMemory;
use row_fields::Fields;
use std::alloc::Global;
use std::collections::{HashMap, HashSet};
use value_types::Names;

/// A name with `_` and a number behind it.
fn with_number(alloc: Global, name: &[u8], number: usize) -> Result<Vec<u8>, NoMemory>
    ensures { IfOk result (λ other. other.items ≡ with_number name.now number) }
{
    let mut other = name.to_vec(alloc)?;
    other.push(b'_')?;
    other.extend_from_slice(itoa::Buffer::new().format(number).as_bytes())?;
    Ok(other)
}

/// The name, or the first of the name with `_1`, `_2` and so on, that isn't taken. For a name that comes again the search
/// begins behind the numbers that are known to be taken, so that each of n equal names costs a few look-ups, and not n / 2.
fn first_free(
    alloc: Global,
    taken: &HashSet<Vec<u8>>,
    numbers: &mut HashMap<Vec<u8>, usize>,
    name: Vec<u8>,
) -> Result<Vec<u8>, NoMemory>
    requires numbers { NumbersAreTaken taken.now.keys numbers.old.entries (λ key. key.items) }
    ensures value { let is_taken = is_key taken.now.keys (λ key. key.items) in
        IfOk result (λ free. free.items ≡ first_free is_taken (length taken.now.keys) name.items) }
    ensures numbers { OnOk result (NumbersAreTaken taken.now.keys numbers.new.entries (λ key. key.items)) }
{
    if !taken.contains(name.as_slice()) {
        return Ok(name);
    }
    let start = numbers.get(&name).copied().unwrap_or(0);
    for tried in start..taken.len() {
        let other = with_number(alloc, &name, tried + 1)?;
        if !taken.contains(other.as_slice()) {
            numbers.insert(name, tried)?;
            return Ok(other);
        }
    }
    Ok(name)
}

/// The first row, if it is a header.
fn header_row<'a>(
    rows: &'a SampledRows,
    header: bool,
    fields: &mut Fields,
) -> Result<Option<&'a [u8]>, NoMemory>
    requires rows { AreRows rows.now.dialect rows.now.sample.now rows.now.spans }
    requires some { header ≡ true → 0 < length rows.now.spans }
    ensures ok { IfOk result (λ row. IfSome row (λ bytes. IsSplit rows.now.dialect bytes.now fields.new)) }
    ensures value { IfOk result (λ row. option_copied row ≡ first_if header (row_texts rows.now.sample.now rows.now.spans)) }
{
    if header {
        Ok(Some(rows.read(0, fields)?))
    } else {
        Ok(None)
    }
}

/// The names of columns by a header's row, made different from left to right. Names that are taken are found by a hash, and
/// so is the number up to which a name is known to be taken.
fn names_by(
    alloc: Global,
    row: Option<&[u8]>,
    fields: &Fields,
    columns: usize,
) -> Result<Names, NoMemory>
    requires fits { IfSome row (λ bytes. length bytes.now ≡ fields.now.row_len) }
    requires few { columns < 2 ^ 63 }
    ensures { (d : Marks) → IfSome row.entry (λ bytes. IsSplit d bytes.now fields.now) →
        IfOk result (λ names. names ≡ detected_names d columns (option_copied row.entry)) }
{
    let mut names = Names::new(alloc);
    let mut taken = HashSet::new(alloc);
    let mut numbers = HashMap::new(alloc);
    for column in 0..columns {
        let wanted = wanted_name(alloc, row, fields, column)?;
        let name = first_free(alloc, &taken, &mut numbers, wanted)?;
        names.push(&name)?;
        taken.insert(name)?;
    }
    Ok(names)
}

/// The names of the columns, by the header if there is one.
pub fn detected_names(
    alloc: Global,
    rows: &SampledRows,
    header: bool,
    columns: usize,
) -> Result<Names, NoMemory>
    requires rows { AreRows rows.now.dialect rows.now.sample.now rows.now.spans }
    requires some { header ≡ true → 0 < length rows.now.spans }
    requires few { columns < 2 ^ 63 }
    ensures { let row = first_if header (row_texts rows.now.sample.now rows.now.spans) in
        IfOk result (λ names. names ≡ detected_names rows.now.dialect columns row) }
{
    let mut fields = Fields::new(alloc);
    let row = header_row(rows, header, &mut fields)?;
    names_by(alloc, row, &fields, columns)
}
