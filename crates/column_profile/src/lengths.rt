// The lengths of a column's texts.
ghost use Rattle.std.specs.Prelude.{◌≡◌, ◌≤◌, length, take, if◌then◌else◌};
ghost use Rattle.std.specs.List.{fold};
ghost use Rattle.value_types.specs.Datum.{null, text};
ghost use Rattle.value_types.specs.Marked.{marked};
ghost use Rattle.value_types.specs.Views.{view_cells, HasRows};
ghost use Rattle.column_profile.specs.Tally.{lengths_with};

use value_types::{ColumnView, Texts, is_marked};

/// The lengths in bytes of the shortest and the longest of some texts.
#[derive(Clone, Copy)]
pub(crate) struct Lengths {
    pub(crate) shortest: usize,
    pub(crate) longest: usize,
}

/// Lengths with a text, unless it is null.
#[inline(always)]
fn with_text(lengths: Option<Lengths>, is_null: bool, bytes: &[u8]) -> Option<Lengths>
    ensures { result ≡ lengths_with lengths (if is_null then null else text bytes.now) }
{
    if is_null {
        return lengths;
    }
    let length = bytes.len();
    match lengths {
        None => Some(Lengths {
            shortest: length,
            longest: length,
        }),
        Some(lengths) => Some(Lengths {
            shortest: lengths.shortest.min(length),
            longest: lengths.longest.max(length),
        }),
    }
}

/// Lengths with the first texts of a column that aren't null.
fn with_texts(
    lengths: Option<Lengths>,
    rows: usize,
    nulls: &[bool],
    texts: &Texts,
) -> Option<Lengths>
    requires { rows ≤ length texts.now }
    ensures { result ≡ fold lengths_with lengths (take rows (marked text nulls.now texts.now)) }
{
    let mut lengths = lengths;
    for row in 0..rows {
        lengths = with_text(lengths, is_marked(nulls, row), texts.get(row));
    }
    lengths
}

/// Lengths with the first cells of a column.
pub(crate) fn lengths_with(
    lengths: Option<Lengths>,
    column: &ColumnView<'_>,
    rows: usize,
) -> Option<Lengths>
    requires { HasRows rows column.now }
    ensures { result ≡ fold lengths_with lengths (take rows (view_cells column.now)) }
{
    match *column {
        ColumnView::Varchar(nulls, texts) => with_texts(lengths, rows, nulls, texts),
        _ => lengths,
    }
}
