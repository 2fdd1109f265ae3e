// The lengths of a column's texts, one after another.
ghost use Rattle.std.specs.Prelude.{◌≡◌, ◌≤◌, length, take, if◌then◌else◌};
ghost use Rattle.std.specs.List.{fold};
ghost use Rattle.value_types.specs.Datum.{null, text};
ghost use Rattle.value_types.specs.Marked.{marked};
ghost use Rattle.column_taps.specs.Seen.{width_with};

use super::Width;
use value_types::{Texts, is_marked};

/// A width with a text, unless it is null.
#[inline(always)]
fn with_text(width: Option<Width>, is_null: bool, bytes: &[u8]) -> Option<Width>
    ensures { result ≡ width_with width (if is_null then null else text bytes.now) }
{
    if is_null {
        return width;
    }
    match width {
        None => Some(Width { bytes: bytes.len() }),
        Some(width) => Some(Width {
            bytes: width.bytes.max(bytes.len()),
        }),
    }
}

/// A width with the first texts of a column that aren't null.
pub(crate) fn with_texts(
    width: Option<Width>,
    rows: usize,
    nulls: &[bool],
    texts: &Texts,
) -> Option<Width>
    requires { rows ≤ length texts.now }
    ensures { result ≡ fold width_with width (take rows (marked text nulls.now texts.now)) }
{
    let mut width = width;
    for row in 0..rows {
        width = with_text(width, is_marked(nulls, row), texts.get(row));
    }
    width
}
