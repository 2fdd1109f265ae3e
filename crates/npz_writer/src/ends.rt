// Where texts end.
ghost use Rattle.std.specs.Prelude.{◌≡◌, ◌≤◌, ◌<◌, ◌+◌, ◌-◌, ◌*◌, ◌%◌, ◌^◌, flat_map, length, pos, slice_index_or, slice_range, take};
ghost use Rattle.value_types.specs.Datum.{null};
ghost use Rattle.value_types.specs.Views.{HasRows, view_cells};
ghost use Rattle.npz_writer.specs.Arrays.{ends_from, number_bytes, text_in};
ghost use Rattle.npz_writer.specs.Blocks.{end_of};

use crate::block::{place_bytes, store};
use value_types::{Cell, ColumnView};

/// How long the text of a row is.
#[inline(always)]
fn text_length(view: &ColumnView<'_>, row: usize) -> usize
    requires { HasRows (row + 1) view.now }
    ensures { result ≡ length (text_in (slice_index_or (view_cells view.now) row null)) }
{
    match view.get(row) {
        Cell::Text(text) => text.len(),
        _ => 0,
    }
}

/// Puts where the texts of the rows from `from` to before `to` end in front of a block, and answers where the last one does.
/// The first begins at `begin`. The numbers stand in 64 bits, in which no memory has bytes that can't be counted.
pub(crate) fn put_ends(
    view: &ColumnView<'_>,
    begin: u64,
    from: usize,
    to: usize,
    block: &mut [u8],
) -> u64
    requires ordered { from ≤ to }
    requires within { HasRows to view.now }
    requires room { 8 * (to - from) ≤ length block.old }
    ensures ends { take (8 * (to - from)) block.new ≡ flat_map (λ end. number_bytes (pos end)) (ends_from begin (slice_range (view_cells view.now) from to)) }
    ensures last { result ≡ end_of begin (slice_range (view_cells view.now) from to) % 2 ^ 64 }
{
    let mut end = begin;
    for row in from..to {
        end = end.wrapping_add(text_length(view, row) as u64);
        let bytes = place_bytes(end);
        store(block, 8 * (row - from), &bytes);
    }
    end
}
