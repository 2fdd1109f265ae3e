//! The names and the types of columns that words give.
ghost use Rattle.std.specs.Prelude.{◌≡◌, [], codes, map, string_bytes, IfOk};
ghost use Rattle.std.specs.Option.{option_map_or};
ghost use Rattle.std.specs.List.{filter_map};
ghost use Rattle.value_types.specs.TypeName.{type_named};
ghost use Rattle.load_options.specs.Given.{given};
ghost use Rattle.load_options.specs.Request.{column_types_given};
ghost use Rattle.load_options.specs.Texts.{pieces_at};

use crate::column_types::{no_typed_columns, typed_columns};
use crate::given::given;
use crate::lists::{pieces_of, types_of};
use crate::options::ColumnTypes;
use csv_source::NoMemory;
use std::alloc::Global;
use value_types::{Names, Types};

/// The names that words give an option; none where they don't give it.
fn names_given(alloc: Global, words: &[String], name: &str) -> Result<Names, NoMemory>
    ensures { IfOk result (λ names. names ≡ option_map_or (pieces_at 44) (given (map string_bytes words.now) name.now) []) }
{
    match given(words, name) {
        Some(text) => pieces_of(alloc, text),
        None => Ok(Names::new(alloc)),
    }
}

/// The types that words give an option; none where they don't give it.
fn types_given(alloc: Global, words: &[String], name: &str) -> Result<Types, NoMemory>
    ensures { IfOk result (λ types. types ≡ option_map_or (λ text. filter_map type_named (pieces_at 44 text)) (given (map string_bytes words.now) name.now) []) }
{
    match given(words, name) {
        Some(text) => types_of(alloc, &pieces_of(alloc, text)?),
        None => Ok(Types::new(alloc)),
    }
}

/// The types of single columns that words give.
fn column_types_given(alloc: Global, words: &[String]) -> Result<ColumnTypes, NoMemory>
    ensures { IfOk result (λ columns. columns ≡ column_types_given (map string_bytes words.now)) }
{
    match given(words, "column_types") {
        Some(text) => typed_columns(alloc, &pieces_of(alloc, text)?),
        None => Ok(no_typed_columns(alloc)),
    }
}

/// The names and the types of columns that words give, and the types of single ones.
pub fn columns_given(
    alloc: Global,
    words: &[String],
) -> Result<(Names, Types, ColumnTypes), NoMemory>
    ensures { let given_names = given (map string_bytes words.now) (codes "names") in let given_types = given (map string_bytes words.now) (codes "types") in
        IfOk result (λ columns. (columns.0 ≡ option_map_or (pieces_at 44) given_names [])
        × (columns.1 ≡ option_map_or (λ text. filter_map type_named (pieces_at 44 text)) given_types [])
        × (columns.2 ≡ column_types_given (map string_bytes words.now))) }
{
    let names = names_given(alloc, words, "names")?;
    let types = types_given(alloc, words, "types")?;
    Ok((names, types, column_types_given(alloc, words)?))
}
