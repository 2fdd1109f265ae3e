// Cells of a row that is looked at once: its values are cast where they stand, and its texts come in runs.
ghost use Rattle.std.specs.Prelude.{◌≡◌, ◌≤◌, ◌<◌, ◌++◌, ◌∷◌, [], true, length, slice_range, IfOk, IfSome, None, OnErr, OnOk};
ghost use Rattle.std.specs.Option.{option_to_list};
ghost use Rattle.value_types.specs.declared.types.ColumnType.TheVariants.{Bigint as bigint, Varchar as varchar};
ghost use Rattle.value_types.specs.declared.types.Value.TheVariants.{Int};
ghost use Rattle.value_types.specs.Datum.{text, typed};
ghost use Rattle.value_types.specs.OfType.{typed_cell};
ghost use Rattle.value_types.specs.Plain.{IsPlainAt};
ghost use Rattle.value_types.specs.Texts.{on_last};
ghost use Rattle.column_store.specs.ColumnCells.{cells_of, room_of, type_of};
ghost use Rattle.column_store.specs.LongerText.{longer};

use crate::column::Column;
use csv_source::NoMemory;
use value_types::{bigint_front, boolean_front, date_front, stamp_front, time_front};

impl Column {
    /// Appends a number to a BIGINT column. `roomy` says that there is room for it.
    #[inline(always)]
    pub(crate) fn push_bigint(&mut self, number: i64, roomy: bool) -> Result<(), NoMemory>
        requires room { roomy ≡ true → length (cells_of self.old) < room_of self.old }
        requires ty { type_of self.old ≡ bigint }
        ensures ty { type_of self.new ≡ type_of self.old }
        ensures ok { OnOk result (cells_of self.new ≡ cells_of self.old ++ typed (Int number) ∷ []) }
        ensures err { OnErr result (cells_of self.new ≡ cells_of self.old) }
        ensures room { room_of self.old ≤ room_of self.new }
    {
        match self {
            Column::Bigint(column) => column.push_number(number, roomy),
            _ => unreachable!(),
        }
    }

    /// Appends the value of the type whose plain form begins at a place, and answers where it ends. None, and nothing is
    /// appended, where `push_spelled` has to be asked. `roomy` says that there is room for a cell more.
    #[inline(always)]
    pub(crate) fn push_front(
        &mut self,
        bytes: &[u8],
        from: usize,
        roomy: bool,
    ) -> Result<Option<usize>, NoMemory>
        requires room { roomy ≡ true → length (cells_of self.old) < room_of self.old }
        requires within { from ≤ length bytes.now }
        ensures ty { type_of self.new ≡ type_of self.old }
        ensures at { IfOk result (λ found. IfSome found (IsPlainAt (type_of self.old) bytes.now from)) }
        ensures ok { IfOk result (λ found. IfSome found (λ end. cells_of self.new ≡ cells_of self.old ++ option_to_list (typed_cell (slice_range bytes.now from end) (type_of self.old)))) }
        ensures none { IfOk result (λ found. found ≡ None → cells_of self.new ≡ cells_of self.old) }
        ensures err { OnErr result (cells_of self.new ≡ cells_of self.old) }
        ensures room { room_of self.old ≤ room_of self.new }
    {
        match self {
            Column::Boolean(column) => match boolean_front(bytes, from) {
                Some(front) => {
                    column.push_some(Some(front.truth), roomy)?;
                    Ok(Some(front.end))
                }
                None => Ok(None),
            },
            Column::Bigint(column) => match bigint_front(bytes, from) {
                Some(front) => {
                    column.push_number(front.number, roomy)?;
                    Ok(Some(front.end))
                }
                None => Ok(None),
            },
            Column::Date(column) => match date_front(bytes, from) {
                Some(front) => {
                    column.push_some(Some(front.day), roomy)?;
                    Ok(Some(front.end))
                }
                None => Ok(None),
            },
            Column::Time(column) => match time_front(bytes, from) {
                Some(front) => {
                    column.push_some(Some(front.micros), roomy)?;
                    Ok(Some(front.end))
                }
                None => Ok(None),
            },
            Column::Timestamp(column) => match stamp_front(bytes, from) {
                Some(front) => {
                    column.push_some(Some(front.micros), roomy)?;
                    Ok(Some(front.end))
                }
                None => Ok(None),
            },
            Column::Varchar(_) => Ok(None),
        }
    }

    /// Appends a text to a VARCHAR column.
    #[inline(always)]
    pub(crate) fn push_text(&mut self, bytes: &[u8]) -> Result<(), NoMemory>
        requires ty { type_of self.old ≡ varchar }
        ensures ty { type_of self.new ≡ type_of self.old }
        ensures ok { OnOk result (cells_of self.new ≡ cells_of self.old ++ text bytes.now ∷ []) }
        ensures err { OnErr result (cells_of self.new ≡ cells_of self.old) }
        ensures room { room_of self.old ≤ room_of self.new }
    {
        match self {
            Column::Varchar(column) => column.push_text(bytes),
            _ => unreachable!(),
        }
    }

    /// Appends bytes to the last text of a VARCHAR column; null stays null.
    #[inline(always)]
    pub(crate) fn extend_text(&mut self, more: &[u8]) -> Result<(), NoMemory>
        requires some { 0 < length (cells_of self.old) }
        requires ty { type_of self.old ≡ varchar }
        ensures ty { type_of self.new ≡ type_of self.old }
        ensures ok { OnOk result (cells_of self.new ≡ on_last (longer more.now) (cells_of self.old)) }
        ensures err { OnErr result (cells_of self.new ≡ cells_of self.old) }
        ensures room { room_of self.old ≤ room_of self.new }
    {
        match self {
            Column::Varchar(column) => column.extend_last(more),
            _ => unreachable!(),
        }
    }
}
