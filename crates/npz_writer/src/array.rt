// An array by its place.
use crate::part::Part;

/// An array of a column of one of several sheets, by the numbers of sheet and column.
#[derive(Clone, Copy)]
pub(crate) struct Array {
    pub(crate) sheet: usize,
    pub(crate) column: usize,
    pub(crate) part: Part,
}
