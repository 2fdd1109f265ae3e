// Which values are null.
ghost use Rattle.std.specs.Prelude.{◌≡◌, ◌∷◌};
ghost use Rattle.std.specs.List.{list_any};
ghost use Rattle.std.specs.Str.{bytes_eq};
ghost use Rattle.value_types.specs.Null.{is_null};

use crate::Names;

/// Whether a value is one of some texts. It is cold, so that a load under one text alone that stands for null, as most are,
/// keeps its registers.
#[cold]
#[inline(never)]
fn is_among(texts: &Names, value: &[u8]) -> bool
    ensures { result ≡ list_any (bytes_eq value.now) texts.now }
{
    for number in 0..texts.len() {
        if value == texts.get(number) {
            return true;
        }
    }
    false
}

/// Whether a value is null: it is the first text that stands for null or one of the further ones, and not quoted, or quoted
/// nulls are allowed.
#[inline(always)]
pub fn is_null(
    nullstr: &[u8],
    nulls: &Names,
    allow_quoted_nulls: bool,
    quoted: bool,
    value: &[u8],
) -> bool
    ensures { result ≡ is_null (nullstr.now ∷ nulls.now) allow_quoted_nulls quoted value.now }
{
    (value == nullstr || nulls.len() > 0 && is_among(nulls, value))
        && (!quoted || allow_quoted_nulls)
}
