//! Whether a text begins with the header that was found in another one.
ghost use Rattle.std.specs.Prelude.{◌≡◌, ◌<◌, ◌^◌, length, slice_get, false, IfOk};
ghost use Rattle.std.specs.Cmp.Lexicographic.{pointwise};
ghost use Rattle.std.specs.Option.{option_map_or};
ghost use Rattle.std.specs.Str.{bytes_eq};
ghost use Rattle.csv_sniffer.specs.LaterHeader.{begins_alike, names_columns};
ghost use Rattle.csv_sniffer.specs.Rows.{AreRows, row_texts};

use crate::Sniffed;
use crate::detected_names::detected_names;
use crate::first_row::has_whole_row;
use crate::sampled_rows::{SampledRows, sampled_under};
use csv_source::NoMemory;
use load_options::Options;
use row_fields::Fields;
use std::alloc::Global;
use value_types::Names;

/// Whether two lists are of the same names.
fn are_same(names: &Names, others: &Names) -> bool
    ensures { result ≡ pointwise bytes_eq names.now others.now }
{
    if names.len() != others.len() {
        return false;
    }
    for column in 0..names.len() {
        if names.get(column) != others.get(column) {
            return false;
        }
    }
    true
}

/// Whether the first row, as a header, gives the columns the names that were found. A field more than there are columns
/// would be the name of another one.
fn names_columns(alloc: Global, found: &Sniffed, rows: &SampledRows) -> Result<bool, NoMemory>
    requires rows { AreRows rows.now.dialect rows.now.sample.now rows.now.spans }
    requires dialect { rows.now.dialect ≡ found.now.dialect }
    requires some { 0 < length rows.now.spans }
    requires few { length found.now.names < 2 ^ 63 }
    ensures { IfOk result (λ same. same ≡ option_map_or (names_columns found.now) (slice_get (row_texts rows.now.sample.now rows.now.spans) 0) false) }
{
    let columns = found.names.len();
    let mut fields = Fields::new(alloc);
    rows.read(0, &mut fields)?;
    if fields.count() > columns {
        return Ok(false);
    }
    let names = detected_names(alloc, rows, true, columns)?;
    Ok(are_same(&names, &found.names))
}

/// Whether a sample begins with the header that was found in another text, in its dialect. Where none was found, any sample
/// does; a row that is cut is none. `whole` says that the input ends where the sample ends.
pub fn begins_alike(
    alloc: Global,
    options: &Options,
    found: &Sniffed,
    sample: &[u8],
    whole: bool,
) -> Result<bool, NoMemory>
    requires few { length found.now.names < 2 ^ 63 }
    ensures { IfOk result (λ same. same ≡ begins_alike options.now found.now sample.now whole) }
{
    if !found.header {
        return Ok(true);
    }
    let rows = sampled_under(alloc, found.dialect, sample, whole, options.sample_size)?;
    if !has_whole_row(&rows, whole) {
        return Ok(false);
    }
    names_columns(alloc, found, &rows)
}
