//! Types that are given to columns by their names.
ghost use Rattle.std.specs.Prelude.{◌≡◌, ◌∷◌, ◌+◌, ◌<◌, IfOk, None, Some, drop, length, MatchOption};
ghost use Rattle.csv_sniffer.specs.NamedTypes.{missing_name, type_given, types_by_name, ArePlaces};

use csv_source::NoMemory;
use load_options::ColumnTypes;
use std::alloc::Global;
use std::collections::HashMap;
use value_types::{ColumnType, Names, Types};

/// The place of each name, of equal ones the first. By a hash, so that thousands of types are given to thousands of columns
/// in linear time.
fn places_of<'a>(alloc: Global, names: &'a Names) -> Result<HashMap<&'a [u8], usize>, NoMemory>
    ensures { IfOk result (λ places. ArePlaces names.now places.entries (λ name. name.now)) }
{
    let mut places = HashMap::new(alloc);
    for place in (0..names.len()).rev() {
        places.insert(names.get(place), place)?;
    }
    Ok(places)
}

/// The type that is given to columns of a name.
fn type_given(
    given: &ColumnTypes,
    places: &HashMap<&[u8], usize>,
    name: &[u8],
) -> Option<ColumnType>
    requires places { ArePlaces given.now.names places.now.entries (λ name. name.now) }
    ensures { result ≡ type_given given.now name.now }
{
    match places.get(name) {
        Some(place) => given.types.as_slice().get(*place).copied(),
        None => None,
    }
}

/// The type of a column: the one that is given to its name, else the one found.
fn final_type(
    given: &ColumnTypes,
    places: &HashMap<&[u8], usize>,
    names: &Names,
    found: &Types,
    column: usize,
) -> ColumnType
    requires places { ArePlaces given.now.names places.now.entries (λ name. name.now) }
    requires within { column < length found.now }
    ensures { types_by_name given.now (drop column names.now) (drop column found.now)
        ≡ result ∷ types_by_name given.now (drop (column + 1) names.now) (drop (column + 1) found.now) }
{
    let ty = found.get(column);
    if column < names.len() {
        type_given(given, places, names.get(column)).unwrap_or(ty)
    } else {
        ty
    }
}

/// The types of columns of these names, by the places of names that are given.
fn typed_by(
    alloc: Global,
    given: &ColumnTypes,
    places: &HashMap<&[u8], usize>,
    names: &Names,
    found: &Types,
) -> Result<Types, NoMemory>
    requires places { ArePlaces given.now.names places.now.entries (λ name. name.now) }
    ensures { IfOk result (λ types. types ≡ types_by_name given.now names.now found.now) }
{
    let mut types = Types::new(alloc);
    for column in 0..found.len() {
        types.push(final_type(given, places, names, found, column))?;
    }
    Ok(types)
}

/// The types of columns of these names: each the one that is given to its name, else the one found.
pub fn types_by_name(
    alloc: Global,
    given: &ColumnTypes,
    names: &Names,
    found: Types,
) -> Result<Types, NoMemory>
    ensures { IfOk result (λ types. types ≡ types_by_name given.now names.now found) }
{
    if given.names.len() == 0 {
        return Ok(found);
    }
    let places = places_of(alloc, &given.names)?;
    typed_by(alloc, given, &places, names, &found)
}

/// The first name of given types that no column has.
pub fn missing_name<'a>(
    alloc: Global,
    given: &'a ColumnTypes,
    names: &Names,
) -> Result<Option<&'a [u8]>, NoMemory>
    ensures { IfOk result (λ found. MatchOption found (missing_name given.now names.now ≡ None) (λ name. missing_name given.now names.now ≡ Some name.now)) }
{
    if given.names.len() == 0 {
        return Ok(None);
    }
    let places = places_of(alloc, names)?;
    for at in 0..given.names.len() {
        let name = given.names.get(at);
        if !places.contains_key(name) {
            return Ok(Some(name));
        }
    }
    Ok(None)
}
