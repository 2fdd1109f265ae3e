// Cells that are null, counted by their marks.
ghost use Rattle.std.specs.Prelude.{◌≡◌, take, count_by};
ghost use Rattle.value_types.specs.Views.{view_cells, HasRows};
ghost use Rattle.column_profile.specs.Tally.{is_null_cell};

use value_types::ColumnView;

/// How many marks are set.
fn set_marks(marks: &[bool]) -> usize
    ensures { result ≡ count_by (λ mark. mark) marks.now }
{
    let mut count = 0;
    for mark in marks {
        if *mark {
            count += 1;
        }
    }
    count
}

/// How many of the first marks are set.
fn set_among(marks: &[bool], rows: usize) -> usize
    ensures { result ≡ count_by (λ mark. mark) (take rows marks.now) }
{
    set_marks(&marks[..rows.min(marks.len())])
}

/// How many of the first cells of a column are null.
pub(crate) fn nulls_among(column: &ColumnView<'_>, rows: usize) -> u64
    requires { HasRows rows column.now }
    ensures { result ≡ count_by is_null_cell (take rows (view_cells column.now)) }
{
    set_among(column.nulls(), rows) as u64
}
