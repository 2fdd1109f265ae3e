// The arrays of a column.
ghost use Rattle.std.specs.Prelude.{◌≡◌, ◌≤◌, length};
ghost use Rattle.npz_writer.specs.Arrays.{element_kind, part_name, value_kind};

use value_types::ColumnType;

/// What an array of a column has.
#[derive(Clone, Copy, PartialEq, Eq)]
pub(crate) enum Part {
    /// The values, or where the cells are texts all of their bytes.
    Values,
    /// Where each text ends among these.
    Ends,
    /// Which cells are null.
    Nulls,
}

/// What NumPy calls the values of a type.
fn value_kind(ty: ColumnType) -> &'static [u8]
    ensures value { result.now ≡ value_kind ty }
    ensures short { length result.now ≤ 8 }
{
    match ty {
        ColumnType::Boolean => b"|b1",
        ColumnType::Bigint => b"<i8",
        ColumnType::Date => b"<M8[D]",
        ColumnType::Time => b"<m8[us]",
        ColumnType::Timestamp => b"<M8[us]",
        ColumnType::Varchar => b"|u1",
    }
}

impl Part {
    /// What NumPy calls the elements of this array of a column.
    pub(crate) fn kind(self, ty: ColumnType) -> &'static [u8]
        ensures value { result.now ≡ element_kind ty self }
        ensures short { length result.now ≤ 8 }
    {
        match self {
            Part::Values => value_kind(ty),
            Part::Ends => b"<i8",
            Part::Nulls => b"|b1",
        }
    }

    /// What stands behind the column's key in the array's name.
    pub(crate) fn suffix(self, ty: ColumnType) -> &'static [u8]
        ensures value { result.now ≡ part_name ty self }
        ensures short { length result.now ≤ 6 }
    {
        match (self, ty) {
            (Part::Values, ColumnType::Varchar) => b":bytes",
            (Part::Values, _) => b"",
            (Part::Ends, _) => b":ends",
            (Part::Nulls, _) => b":null",
        }
    }
}
