// What a table's columns are.
ghost use Rattle.std.specs.Prelude.{◌≡◌, ◌<◌, false, length, slice_index_or};
ghost use Rattle.std.specs.List.{list_any};
ghost use Rattle.value_types.specs.declared.types.ColumnType.TheVariants.{Varchar};
ghost use Rattle.column_store.specs.TableView.{column_of};
ghost use Rattle.column_store.specs.ViewTypes.{type_of_view};
ghost use Rattle.npz_writer.specs.declared.part.Part.TheVariants.{Values};
ghost use Rattle.npz_writer.specs.Arrays.{is_null};
ghost use Rattle.npz_writer.specs.Walks.{takes_texts};

use column_store::{Chunk, Table};
use value_types::{ColumnType, ColumnView};

fn type_of_view(view: &ColumnView<'_>) -> ColumnType
    ensures { result ≡ type_of_view view.now }
{
    match view {
        ColumnView::Boolean(..) => ColumnType::Boolean,
        ColumnView::Bigint(..) => ColumnType::Bigint,
        ColumnView::Date(..) => ColumnType::Date,
        ColumnView::Time(..) => ColumnType::Time,
        ColumnView::Timestamp(..) => ColumnType::Timestamp,
        ColumnView::Varchar(..) => ColumnType::Varchar,
    }
}

/// The type of a column, counted from 0.
pub(crate) fn type_of(table: &Table, column: usize) -> ColumnType
    requires { column < length table.now.types }
    ensures { result ≡ slice_index_or table.now.types column Varchar }
{
    let (_, last) = table.chunks();
    type_of_view(&last.view(column))
}

/// Whether the values of a type are texts.
pub(crate) fn has_texts(ty: ColumnType) -> bool
    ensures { result ≡ takes_texts Values ty }
{
    matches!(ty, ColumnType::Varchar)
}

/// Whether a cell of a chunk's column is null.
fn chunk_has_null(chunk: &Chunk, column: usize) -> bool
    requires { column < length chunk.now.types }
    ensures { result ≡ list_any is_null (column_of chunk.now.rows column) }
{
    let nulls = chunk.view(column).nulls();
    nulls[..nulls.len().min(chunk.rows())].contains(&true)
}

/// Whether a cell of a column is null.
pub(crate) fn has_null(table: &Table, column: usize) -> bool
    requires { column < length table.now.types }
    ensures { result ≡ list_any is_null (column_of table.now.rows column) }
{
    let (earlier, last) = table.chunks();
    for chunk in earlier {
        if chunk_has_null(chunk, column) {
            return true;
        }
    }
    chunk_has_null(last, column)
}
