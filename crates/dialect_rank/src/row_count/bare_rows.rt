//! A row in which no quote stands is counted 64 bytes at a time: it has one field more than delimiters.
ghost use Rattle.std.specs.Prelude.{◌≡◌, ◌≤◌, ◌<◌, ◌+◌, ◌==◌, false, count_by, length, map, not, take, IfSome};
ghost use Rattle.std.specs.Int.RustNames.{count_ones};
ghost use Rattle.std.specs.List.{prefix_len};
ghost use lib.Lanes.{chunk, mask_l};
ghost use Rattle.byte_classes.specs.Special.{is_one_of};
ghost use Rattle.quote_automaton.specs.Rows.{begins_comment};
ghost use Rattle.dialect_rank.specs.RowCount.{HasCount};

use crate::row_count::RowCount;
use byte_classes::{Dialect, is_line_end, wide_equal_to, wide_equal_to_one_of, wide_lanes_at};
use std::simd::prelude::*;

/// How many lanes stand before the first that is a line end or this byte; 64 where none is.
#[inline(always)]
fn bare_run(lanes: u8x64, quote: u8) -> usize
    ensures { result ≡ prefix_len (λ b. not (is_one_of 10 13 quote b)) lanes }
{
    let found = wide_equal_to_one_of(lanes, b'\n', b'\r', quote);
    if found == 0 {
        64
    } else {
        found.trailing_zeros() as usize
    }
}

/// How many bits are set.
#[inline(always)]
fn ones(mask: u64) -> usize
    ensures { result ≡ count_ones mask }
{
    mask.count_ones() as usize
}

/// How many lanes equal a byte.
#[inline(always)]
fn count(lanes: u8x64, byte: u8) -> usize
    ensures { result ≡ count_by (λ b. b == byte) lanes }
{
    ones(wide_equal_to(lanes, byte))
}

/// How many of the first lanes equal a byte.
#[inline(always)]
fn count_first(lanes: u8x64, byte: u8, first: usize) -> usize
    requires { first < 64 }
    ensures { result ≡ count_by (λ b. b == byte) (take first lanes) }
{
    ones(wide_equal_to(lanes, byte) % (1 << first))
}

/// Counts the fields of the row at the front of the bytes, where no quote stands in it. None where one does, or where the
/// row ends with the last bytes.
#[inline(always)]
pub fn count_bare(dialect: &Dialect, bytes: &[u8]) -> Option<RowCount>
    requires no_comment { begins_comment dialect.now bytes.now ≡ false }
    ensures { IfSome result (HasCount dialect.now bytes.now) }
{
    let delim = dialect.delim();
    // Where there is no quote, a line end stands for it.
    let quote = dialect.quote().unwrap_or(b'\n');
    let mut delims = 0;
    let mut at = 0;
    'blocks: while bytes.len() - at >= 64 {
        let lanes = wide_lanes_at(bytes, at);
        let run = bare_run(lanes, quote);
        if run < 64 {
            if !is_line_end(bytes[at + run]) {
                return None;
            }
            return Some(RowCount {
                end: at + run,
                fields: delims + count_first(lanes, delim, run) + 1,
                quoted: 0,
            });
        }
        delims += count(lanes, delim);
        at += 64;
    }
    None
}
