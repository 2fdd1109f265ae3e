// The columns of texts among others.
ghost use Rattle.std.specs.Prelude.{◌≡◌, ◌++◌, IfOk, OnOk};
ghost use Rattle.column_taps.specs.TextColumns.{as_texts, texts_among};

use csv_source::NoMemory;
use std::alloc::Global;
use value_types::{ColumnView, Texts};

/// A column of texts, by its number from 0.
#[derive(Clone, Copy)]
pub(crate) struct TextColumn<'a> {
    pub(crate) place: usize,
    pub(crate) nulls: &'a [bool],
    pub(crate) texts: &'a Texts,
}

/// Appends a column where it is one of texts.
fn push_texts<'a>(
    found: &mut Vec<TextColumn<'a>>,
    place: usize,
    column: ColumnView<'a>,
) -> Result<(), NoMemory>
    ensures { OnOk result (found.new.items ≡ found.old.items ++ as_texts place column.entry) }
{
    if let ColumnView::Varchar(nulls, texts) = column {
        found.push(TextColumn {
            place,
            nulls,
            texts,
        })?;
    }
    Ok(())
}

/// The columns of texts, in their order.
pub(crate) fn text_columns<'a>(
    alloc: Global,
    columns: &[ColumnView<'a>],
) -> Result<Vec<TextColumn<'a>>, NoMemory>
    ensures { IfOk result (λ found. found.items ≡ texts_among 0 columns.now) }
{
    let mut found = Vec::new(alloc);
    for place in 0..columns.len() {
        push_texts(&mut found, place, columns[place])?;
    }
    Ok(found)
}
