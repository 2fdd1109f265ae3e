// A profile as CSV text.
ghost use Rattle.std.specs.Prelude.{◌≡◌, ◌++◌, length, map, decimal, All, IfOk, IfSome, OnOk};
ghost use Rattle.value_types.specs.Spelled.{IsSpelled};
ghost use Rattle.value_types.specs.ValueText.{value_text};
ghost use Rattle.csv_writer.specs.WrittenTable.{line_of_fields, names_line};
ghost use Rattle.column_profile.specs.Fields.{field_text, IsSpelledField};
ghost use Rattle.column_profile.specs.Kept.{kept_apart, tally_in, HasSpelledSpan};
ghost use Rattle.column_profile.specs.Profile.{column_line, field_if_some, profile_fields, written_profile};
ghost use Rattle.column_profile.specs.Tally.{apart_count};

use crate::column::Column;
use crate::different::Different;
use crate::fields::{Field, push_line};
use crate::lengths::Lengths;
use crate::profile::Profile;
use crate::span::Span;
use csv_source::NoMemory;
use std::alloc::Global;
use text_pieces::{Draft, Pieces};
use value_types::{ColumnType, Names, type_name};

/// Appends the line of names.
fn push_names(into: &mut Draft) -> Result<(), NoMemory>
    ensures { OnOk result (into.new.text ≡ into.old.text ++ names_line profile_fields) }
{
    push_line(
        into,
        &[
            Field::Text(b"column"),
            Field::Text(b"name"),
            Field::Text(b"type"),
            Field::Text(b"rows"),
            Field::Text(b"nulls"),
            Field::Text(b"distinct"),
            Field::Text(b"least"),
            Field::Text(b"greatest"),
            Field::Text(b"shortest"),
            Field::Text(b"longest"),
        ],
    )
}

/// How many different values there are.
fn distinct_field(different: &Option<Different>) -> Field<'static>
    ensures text { field_text result ≡ field_if_some (λ different. decimal (apart_count (kept_apart different))) different.now }
    ensures spelled { IsSpelledField result }
{
    match different {
        Some(different) => Field::Number(different.count() as u64),
        None => Field::Nothing,
    }
}

/// The least and the greatest value.
fn span_fields(span: Option<Span>) -> (Field<'static>, Field<'static>)
    requires { IfSome span (λ span. IsSpelled span.least × IsSpelled span.greatest) }
    ensures least { field_text result.0 ≡ field_if_some (λ span. value_text span.least) span }
    ensures greatest { field_text result.1 ≡ field_if_some (λ span. value_text span.greatest) span }
    ensures spelled { IsSpelledField result.0 × IsSpelledField result.1 }
{
    match span {
        Some(span) => (Field::Typed(span.least), Field::Typed(span.greatest)),
        None => (Field::Nothing, Field::Nothing),
    }
}

/// The lengths of the shortest and the longest text.
fn length_fields(lengths: Option<Lengths>) -> (Field<'static>, Field<'static>)
    ensures shortest { field_text result.0 ≡ field_if_some (λ lengths. decimal lengths.shortest) lengths }
    ensures longest { field_text result.1 ≡ field_if_some (λ lengths. decimal lengths.longest) lengths }
    ensures spelled { IsSpelledField result.0 × IsSpelledField result.1 }
{
    match lengths {
        Some(lengths) => (
            Field::Number(lengths.shortest as u64),
            Field::Number(lengths.longest as u64),
        ),
        None => (Field::Nothing, Field::Nothing),
    }
}

/// The fields of a column of this number, name and type, where there are so many rows.
fn fields_of<'a>(
    number: usize,
    name: &'a [u8],
    ty: ColumnType,
    rows: u64,
    column: &Column,
) -> [Field<'a>; 10]
    requires { HasSpelledSpan (tally_in column.now) }
    ensures text { line_of_fields (map field_text result) ≡ column_line number name.now ty rows (tally_in column.now) }
    ensures spelled { All IsSpelledField result }
{
    let (least, greatest) = span_fields(column.span);
    let (shortest, longest) = length_fields(column.lengths);
    [
        Field::Number(number as u64),
        Field::Text(name),
        Field::Text(type_name(ty).as_bytes()),
        Field::Number(rows),
        Field::Number(column.nulls),
        distinct_field(&column.different),
        least,
        greatest,
        shortest,
        longest,
    ]
}

/// A line with the names of the fields, and one for each column: its number from 0, its name and type, how many rows there are,
/// how many cells are null, how many different values there are, the least and the greatest value, and the lengths of the
/// shortest and the longest text. A field that isn't known is empty.
pub fn write_profile(alloc: Global, profile: &Profile, names: &Names) -> Result<Pieces, NoMemory>
    requires names { length names.now ≡ length profile.now.types }
    ensures { IfOk result (λ text. text ≡ written_profile names.now profile.now) }
{
    let mut text = Draft::new(alloc);
    push_names(&mut text)?;
    for number in 0..profile.columns() {
        let column = profile.column(number);
        let ty = profile.type_of(number);
        let fields = fields_of(number, names.get(number), ty, profile.rows(), column);
        push_line(&mut text, &fields)?;
    }
    Ok(Pieces::of(alloc, text.into_text()))
}
