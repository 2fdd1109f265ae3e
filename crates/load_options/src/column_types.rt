//! Words that give the types of single columns by their names.
ghost use Rattle.std.specs.Prelude.{◌≡◌, ◌<◌, [], IfOk, IfSome, length, map};
ghost use Rattle.std.specs.Path.{rfind_below};
ghost use Rattle.load_options.specs.ColumnTypes.{are_typed_columns, cut_pair, pair_name, pair_type, typed_columns};
ghost use Rattle.load_options.specs.Reasons.{Explains, SaysOfPairs};

use crate::limits::COLUMN_TYPES_LIMIT;
use crate::lists::{names_reason, types_of, untyped_at};
use crate::options::ColumnTypes;
use crate::reason::Reason;
use csv_source::NoMemory;
use std::alloc::Global;
use value_types::{Names, Types};

/// The place of the last colon of a pair. A name may have colons, and no type has one.
fn last_colon(pair: &[u8]) -> Option<usize>
    ensures value { result ≡ rfind_below 58 pair.now (length pair.now) }
    ensures within { IfSome result (λ at. at < length pair.now) }
{
    for at in (0..pair.len()).rev() {
        if pair[at] == b':' {
            return Some(at);
        }
    }
    None
}

/// The name and the type of a pair, as they are written.
fn cut_pair(pair: &[u8]) -> (&[u8], &[u8])
    ensures { (result.0.now, result.1.now) ≡ cut_pair pair.now }
{
    match last_colon(pair) {
        Some(at) => (&pair[..at], &pair[at + 1..]),
        None => (pair, b"".as_slice()),
    }
}

/// The names and the types of pairs, as they are written.
fn cut_pairs(alloc: Global, pairs: &Names) -> Result<(Names, Names), NoMemory>
    ensures { IfOk result (λ both. (both.0 ≡ map pair_name pairs.now) × (both.1 ≡ map pair_type pairs.now)) }
{
    let mut names = Names::new(alloc);
    let mut types = Names::new(alloc);
    for at in 0..pairs.len() {
        let (name, ty) = cut_pair(pairs.get(at));
        names.push(name)?;
        types.push(ty)?;
    }
    Ok((names, types))
}

/// Why these can't be pairs of a name and a type: not too many, each of a type, their names as names of columns are.
pub fn pairs_reason(alloc: Global, pairs: &Names) -> Result<Option<Reason>, NoMemory>
    ensures { IfOk result (λ reason. Explains reason (are_typed_columns pairs.now) (SaysOfPairs pairs.now)) }
{
    if pairs.len() > COLUMN_TYPES_LIMIT {
        return Ok(Some(Reason::TooMany(COLUMN_TYPES_LIMIT)));
    }
    let (names, types) = cut_pairs(alloc, pairs)?;
    match untyped_at(&types) {
        Some(place) => Ok(Some(Reason::NoType(place))),
        None => names_reason(alloc, &names),
    }
}

/// The names of pairs, and their types, leaving out what names no type.
pub fn typed_columns(alloc: Global, pairs: &Names) -> Result<ColumnTypes, NoMemory>
    ensures { IfOk result (λ columns. columns ≡ typed_columns pairs.now) }
{
    let (names, types) = cut_pairs(alloc, pairs)?;
    Ok(ColumnTypes {
        names,
        types: types_of(alloc, &types)?,
    })
}

/// No column's type.
pub fn no_typed_columns(alloc: Global) -> ColumnTypes
    ensures { result ≡ typed_columns [] }
{
    ColumnTypes {
        names: Names::new(alloc),
        types: Types::new(alloc),
    }
}
