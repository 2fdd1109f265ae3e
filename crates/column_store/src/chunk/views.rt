// The columns of a chunk, seen by slices.
ghost use Rattle.std.specs.Prelude.{◌≡◌, ◌<◌, length, map, slice_get, take, All, IfOk, Some};
ghost use Rattle.value_types.specs.Views.{view_cells, view_rows, HasRows};
ghost use Rattle.column_store.specs.ColumnCells.{cells_of, type_of};
ghost use Rattle.column_store.specs.TableView.{column_of};
ghost use Rattle.column_store.specs.ViewTypes.{type_of_view};

use crate::chunk::Chunk;
use crate::column::Column;
use csv_source::NoMemory;
use std::alloc::Global;
use value_types::ColumnView;

/// The cells of a column.
fn view_of(column: &Column) -> ColumnView<'_>
    ensures cells { view_cells result ≡ cells_of column.now }
    ensures long { HasRows (length (cells_of column.now)) result }
    ensures ty { type_of_view result ≡ type_of column.now }
{
    match column {
        Column::Boolean(column) => ColumnView::Boolean(column.nulls(), column.values()),
        Column::Bigint(column) => ColumnView::Bigint(column.view()),
        Column::Date(column) => ColumnView::Date(column.nulls(), column.values()),
        Column::Time(column) => ColumnView::Time(column.nulls(), column.values()),
        Column::Timestamp(column) => ColumnView::Timestamp(column.nulls(), column.values()),
        Column::Varchar(column) => ColumnView::Varchar(column.nulls(), column.texts()),
    }
}

/// The cells of each column.
fn views_of(alloc: Global, columns: &[Column]) -> Result<Vec<ColumnView<'_>>, NoMemory>
    ensures cells { IfOk result (λ views. map view_cells views.items ≡ map cells_of columns.now) }
    ensures long { IfOk result (λ views. All (λ view. HasRows (length (view_cells view)) view) views.items) }
{
    let mut views = Vec::with_capacity(alloc, columns.len())?;
    for column in columns {
        views.push(view_of(column))?;
    }
    Ok(views)
}

impl Chunk {
    /// The columns, in each of which the cells of the finished rows come first.
    pub fn views(&self, alloc: Global) -> Result<Vec<ColumnView<'_>>, NoMemory>
        ensures rows { IfOk result (λ views. view_rows views.items (length self.now.rows) ≡ self.now.rows) }
        ensures columns { IfOk result (λ views. length views.items ≡ length self.now.types) }
        ensures long { IfOk result (λ views. All (HasRows (length self.now.rows)) views.items) }
    {
        let views = views_of(alloc, &self.columns)?;
        Ok(views)
    }

    /// A column, in which the cells of the finished rows come first.
    pub fn view(&self, column: usize) -> ColumnView<'_>
        requires { column < length self.now.types }
        ensures cells { take (length self.now.rows) (view_cells result) ≡ column_of self.now.rows column }
        ensures long { HasRows (length self.now.rows) result }
        ensures ty { slice_get self.now.types column ≡ Some (type_of_view result) }
    {
        view_of(&self.columns[column])
    }
}
