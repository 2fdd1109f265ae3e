//! Of which types texts are.
ghost use Rattle.std.specs.Prelude.{◌≡◌};
ghost use Rattle.value_types.specs.OfType.{is_of_type};

use crate::casting::{cast_bigint, cast_boolean, cast_date, cast_time, cast_timestamp};
use crate::types::ColumnType;

/// Whether the text spells a value of the type; any text is VARCHAR.
#[inline(always)]
pub fn is_of_type(text: &[u8], ty: ColumnType) -> bool
    ensures { result ≡ is_of_type text.now ty }
{
    match ty {
        ColumnType::Boolean => cast_boolean(text).is_some(),
        ColumnType::Bigint => cast_bigint(text).is_some(),
        ColumnType::Date => cast_date(text).is_some(),
        ColumnType::Time => cast_time(text).is_some(),
        ColumnType::Timestamp => cast_timestamp(text).is_some(),
        ColumnType::Varchar => true,
    }
}
