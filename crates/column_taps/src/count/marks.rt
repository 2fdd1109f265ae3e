// Cells that aren't null, counted by their marks.
ghost use Rattle.std.specs.Prelude.{◌≡◌, ◌<◌, ◌+◌, ◌*◌, ◌^◌, length, take, count_by, sum_by, All};
ghost use Rattle.value_types.specs.Views.{view_cells, HasRows};
ghost use Rattle.column_taps.specs.Seen.{is_filled};

use value_types::ColumnView;

/// How many marks are set.
fn marked(nulls: &[bool]) -> usize
    ensures { result ≡ count_by (λ mark. mark) nulls.now }
{
    let mut count = 0;
    for mark in nulls {
        if *mark {
            count += 1;
        }
    }
    count
}

/// How many of the first cells aren't marked.
fn unmarked(nulls: &[bool], rows: usize) -> usize
    ensures { result + count_by (λ mark. mark) (take rows nulls.now) ≡ rows }
{
    rows - marked(&nulls[..rows.min(nulls.len())])
}

/// How many of the first cells of a column aren't null.
fn filled_of(column: &ColumnView<'_>, rows: usize) -> u64
    requires { HasRows rows column.now }
    ensures { result ≡ count_by is_filled (take rows (view_cells column.now)) }
{
    unmarked(column.nulls(), rows) as u64
}

/// How many of the first cells of columns aren't null.
pub(crate) fn filled_in(columns: &[ColumnView<'_>], rows: usize) -> u64
    requires long { All (HasRows rows) columns.now }
    requires few { rows * length columns.now < 2 ^ 62 }
    ensures { result ≡ sum_by (λ column. count_by is_filled (take rows (view_cells column))) columns.now }
{
    let mut cells = 0;
    for column in columns {
        cells += filled_of(column, rows);
    }
    cells
}
