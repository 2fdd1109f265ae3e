//! Where the data of a text begin under what was found in another one.
ghost use Rattle.std.specs.Prelude.{◌≡◌, ◌≤◌, length, IfOk};
ghost use Rattle.csv_sniffer.specs.LaterStart.{start_under};

use crate::Sniffed;
use crate::first_row::{data_start, has_whole_row};
use crate::sampled_rows::sampled_under;
use csv_source::NoMemory;
use load_options::Options;
use std::alloc::Global;

/// Where the data begin in a sample, in bytes from its start, under the dialect and the header that were found in another
/// text: behind the first row where there is a header, but never behind a row that is cut. `whole` says that the input ends
/// where the sample ends.
pub fn start_under(
    alloc: Global,
    options: &Options,
    found: &Sniffed,
    sample: &[u8],
    whole: bool,
) -> Result<usize, NoMemory>
    ensures ok { IfOk result (λ start. start ≡ start_under options.now found.now sample.now whole) }
    ensures within { IfOk result (λ start. start ≤ length sample.now) }
{
    let rows = sampled_under(alloc, found.dialect, sample, whole, options.sample_size)?;
    let header = has_whole_row(&rows, whole) && found.header;
    Ok(data_start(&rows, header))
}
