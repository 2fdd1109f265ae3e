//! Blocks of 64 bytes whose quotes are counted.
//! Where each quote opens a field behind a line end or a delimiter, or closes one before such a byte, a byte stands between
//! quotes exactly where an odd number of quotes precedes it: a quote that is written as two closes and opens again. A block
//! that has a quote elsewhere, or a comment byte outside quotes, is left to `step`, and so is one with quotes or between
//! them where the quote isn't its own escape.
ghost use Rattle.std.specs.Prelude.{◌≡◌, ℕ, ◌+◌, ◌<◌, ◌≤◌, ◌==◌, ◌&&◌, ◌||◌, not, IfSome, drop, length, if◌then◌else◌};
ghost use Rattle.std.specs.Int.{bit_at};
ghost use Rattle.byte_classes.specs.Class.{class_of, is_line_end};
ghost use Rattle.byte_classes.specs.Dialect.{is_byte};
ghost use Rattle.byte_classes.specs.Masks.{HasBits};
ghost use Rattle.byte_classes.specs.Special.{is_one_of};
ghost use Rattle.quote_automaton.specs.Automaton.{doubles_quotes, state_after};
ghost use Rattle.quote_automaton.specs.Counted.{HasRowStarts, IsCounted, is_set, state_of};

use crate::doubling::doubled_quote;
use crate::place::{Place, place_of, state_of};
use crate::quote_bits::{behind, last_bit, misplaced, parities, row_starts};
use crate::state::{Reached, State};
use byte_classes::{Dialect, bytes_at, is_line_end, places_of};

/// Which bytes of a block stand between quotes, and what is known behind them.
#[derive(Clone, Copy)]
struct Told {
    inside: u64,
    next: Place,
}

/// The rows of a block, and what is known behind it.
#[derive(Clone, Copy)]
pub struct Block {
    /// A bit for each byte at which a row begins.
    pub begins: u64,
    /// A bit for each LF and CR.
    pub line_ends: u64,
    pub next: Place,
}

/// Whether a byte ends a line or separates two fields.
#[inline(always)]
fn is_separator(dialect: &Dialect, byte: u8) -> bool
    ensures { result ≡ is_one_of 10 13 dialect.now.delim byte }
{
    (byte == b'\n') | (byte == b'\r') | (byte == dialect.delim())
}

/// Whether a byte is the quote.
#[inline(always)]
fn is_quote(dialect: &Dialect, byte: u8) -> bool
    ensures { result ≡ is_byte dialect.now.quote byte }
{
    dialect.quote() == Some(byte)
}

/// Where line ends and delimiters stand in a block.
#[inline(always)]
fn separators(dialect: &Dialect, block: &[u8; 64]) -> u64
    ensures { HasBits (is_one_of 10 13 dialect.now.delim) block.now result }
{
    places_of(b'\n', block) | places_of(b'\r', block) | places_of(dialect.delim(), block)
}

/// Where a byte stands in a block, if there is such a byte.
#[inline(always)]
fn places_of_some(byte: Option<u8>, block: &[u8; 64]) -> u64
    ensures { HasBits (is_byte byte) block.now result }
{
    match byte {
        Some(byte) => places_of(byte, block),
        None => 0,
    }
}

/// Where counting tells nothing: between quotes and at quotes, unless the quote is its own escape.
#[inline(always)]
fn untold(dialect: &Dialect, inside: u64, quotes: u64) -> u64
    ensures { (i : ℕ) → i < 64 → bit_at result i ≡ (if not (doubles_quotes dialect.now) && (is_set inside i || is_set quotes i) then 1 else 0) }
{
    match doubled_quote(dialect) {
        Some(_) => 0,
        None => inside | quotes,
    }
}

/// Which bytes of a block stand between quotes, where no byte in it is out of its place.
#[inline(always)]
fn count_quotes(dialect: &Dialect, block: &[u8; 64], place: Place) -> Option<Told>
    ensures { IfSome result (λ told. IsCounted dialect.now place block.now told.inside told.next) }
{
    let quotes = places_of_some(dialect.quote(), block);
    let odd = parities(quotes, place.inside);
    let inside = behind(odd, place.inside);
    let blind = untold(dialect, inside, quotes);
    if blind != 0 {
        return None;
    }
    let ends = separators(dialect, block);
    let comments = places_of_some(dialect.comment(), block);
    let behind_quotes = behind(quotes, is_quote(dialect, place.last));
    let behind_ends = behind(ends, is_separator(dialect, place.last));
    let wrong = misplaced(inside, comments, behind_quotes, behind_ends, quotes, ends);
    if wrong != 0 || odd ^ inside != quotes {
        return None;
    }
    let next = Place {
        inside: last_bit(odd),
        last: block[63],
    };
    Some(Told { inside, next })
}

/// The rows of a block whose first byte stands at this place, where no byte in it is out of its place.
#[inline(always)]
pub fn read_block(dialect: &Dialect, block: &[u8; 64], place: Place) -> Option<Block>
    ensures begins { IfSome result (λ told. HasRowStarts dialect.now (state_of dialect.now place) block.now told.begins) }
    ensures line_ends { IfSome result (λ told. HasBits (λ b. is_line_end (class_of dialect.now b)) block.now told.line_ends) }
    ensures next { IfSome result (λ told. state_after dialect.now (state_of dialect.now place) block.now ≡ state_of dialect.now told.next) }
{
    let told = count_quotes(dialect, block, place)?;
    let lf = places_of(b'\n', block);
    let cr = places_of(b'\r', block);
    let line_ends = lf | cr;
    let behind_ends = behind(line_ends, is_line_end(place.last));
    let behind_cr = behind(cr, place.last == b'\r');
    Some(Block {
        begins: row_starts(told.inside, behind_ends, lf, behind_cr),
        line_ends,
        next: told.next,
    })
}

/// The place behind the block of 64 bytes at `at`, where no byte in it is out of its place.
#[inline(always)]
fn behind_block(dialect: &Dialect, bytes: &[u8], at: usize, place: Place) -> Option<Place>
    requires within { at + 64 ≤ length bytes.now }
    ensures { IfSome result (λ next. state_after dialect.now (state_of dialect.now place) (drop at bytes.now)
        ≡ state_after dialect.now (state_of dialect.now next) (drop (at + 64) bytes.now)) }
{
    let told = count_quotes(dialect, &bytes_at(bytes, at), place)?;
    Some(told.next)
}

/// Goes on block by block, as long as no byte of a block is out of its place.
pub(crate) fn pass_blocks(dialect: &Dialect, state: State, bytes: &[u8], from: usize) -> Reached
    requires within { from ≤ length bytes.now }
    ensures low { from ≤ result.at }
    ensures high { result.at ≤ length bytes.now }
    ensures after { state_after dialect.now result.state (drop result.at bytes.now) ≡ state_after dialect.now state (drop from bytes.now) }
{
    let mut at = from;
    let Some(start) = place_of(dialect, state) else {
        return Reached { at, state };
    };
    let mut place = start;
    while bytes.len() - at >= 64 {
        let Some(next) = behind_block(dialect, bytes, at, place) else {
            break;
        };
        place = next;
        at += 64;
    }
    Reached {
        at,
        state: state_of(dialect, place),
    }
}
