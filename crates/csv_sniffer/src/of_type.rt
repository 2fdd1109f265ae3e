//! Whether a type takes any text, or whole numbers.
ghost use Rattle.std.specs.Prelude.{◌≡◌};
ghost use Rattle.value_types.specs.OfType.{same_type};
ghost use Rattle.value_types.specs.declared.types.ColumnType.TheVariants.{Bigint};
ghost use Rattle.csv_sniffer.specs.Header.{is_varchar};

use value_types::ColumnType;

/// Whether the type is VARCHAR.
pub fn is_varchar(ty: ColumnType) -> bool
    ensures { result ≡ is_varchar ty }
{
    matches!(ty, ColumnType::Varchar)
}

/// Whether the type is BIGINT.
pub fn is_bigint(ty: ColumnType) -> bool
    ensures { result ≡ same_type ty Bigint }
{
    matches!(ty, ColumnType::Bigint)
}
