// A column of one type.
ghost use Rattle.std.specs.Prelude.{◌≡◌, ◌≢◌, ◌≤◌, ◌<◌, ◌+◌, ◌++◌, ◌∷◌, [], true, is_some, length, slice_get, slice_range, take, IfOk, IsTrue, Some, OnErr, OnOk};
ghost use Rattle.std.specs.Option.{option_to_list};
ghost use Rattle.value_types.specs.declared.types.ColumnType.TheVariants.{Varchar as varchar};
ghost use Rattle.value_types.specs.Datum.{datum_of};
ghost use Rattle.value_types.specs.OfType.{fits, typed_cell};
ghost use Rattle.column_store.specs.ColumnCells.{cells_of, room_of, type_of};

mod fronts;

use crate::bigints::Bigints;
use crate::nullable::Nullable;
use crate::nullable_texts::NullableTexts;
use crate::unwrapping::{boolean_in, date_in, number_in, stamp_in, text_in, time_in};
use csv_source::NoMemory;
use std::alloc::Global;
use value_types::{
    Cell, ColumnType, Value, cast_bigint, cast_boolean, cast_date, cast_time, cast_timestamp,
};

/// A column: its values in vectors of their type's width.
#[derive(Drop)]
pub(crate) enum Column {
    Boolean(Nullable<bool>),
    Bigint(Bigints),
    Date(Nullable<i32>),
    Time(Nullable<i64>),
    Timestamp(Nullable<i64>),
    Varchar(NullableTexts),
}

impl Column {
    /// An empty column of this type.
    pub(crate) fn new(alloc: Global, ty: ColumnType) -> Column
        ensures ty { type_of result ≡ ty }
        ensures cells { cells_of result ≡ [] }
    {
        match ty {
            ColumnType::Boolean => Column::Boolean(Nullable::new(alloc)),
            ColumnType::Bigint => Column::Bigint(Bigints::new(alloc)),
            ColumnType::Date => Column::Date(Nullable::new(alloc)),
            ColumnType::Time => Column::Time(Nullable::new(alloc)),
            ColumnType::Timestamp => Column::Timestamp(Nullable::new(alloc)),
            ColumnType::Varchar => Column::Varchar(NullableTexts::new(alloc)),
        }
    }

    /// The cell of a row, counted from 0.
    #[inline(always)]
    pub(crate) fn get(&self, row: usize) -> Cell<'_>
        requires { row < length (cells_of self.now) }
        ensures { slice_get (cells_of self.now) row ≡ Some (datum_of result) }
    {
        match self {
            Column::Boolean(column) => match column.get(row) {
                Some(truth) => Cell::Value(Value::Bool(truth)),
                None => Cell::Null,
            },
            Column::Bigint(column) => match column.get(row) {
                Some(number) => Cell::Value(Value::Int(number)),
                None => Cell::Null,
            },
            Column::Date(column) => match column.get(row) {
                Some(day) => Cell::Value(Value::Date(day)),
                None => Cell::Null,
            },
            Column::Time(column) => match column.get(row) {
                Some(micros) => Cell::Value(Value::Time(micros)),
                None => Cell::Null,
            },
            Column::Timestamp(column) => match column.get(row) {
                Some(micros) => Cell::Value(Value::Stamp(micros)),
                None => Cell::Null,
            },
            Column::Varchar(column) => match column.get(row) {
                Some(text) => Cell::Text(text),
                None => Cell::Null,
            },
        }
    }

    /// Appends a cell that fits the type.
    #[inline(always)]
    pub(crate) fn push(&mut self, cell: Cell<'_>) -> Result<(), NoMemory>
        requires { IsTrue (fits (type_of self.old) (datum_of cell)) }
        ensures ty { type_of self.new ≡ type_of self.old }
        ensures ok { OnOk result (cells_of self.new ≡ cells_of self.old ++ datum_of cell.entry ∷ []) }
        ensures err { OnErr result (cells_of self.new ≡ cells_of self.old) }
        ensures room { room_of self.old ≤ room_of self.new }
    {
        match self {
            Column::Boolean(column) => column.push(boolean_in(cell)),
            Column::Bigint(column) => column.push(number_in(cell)),
            Column::Date(column) => column.push(date_in(cell)),
            Column::Time(column) => column.push(time_in(cell)),
            Column::Timestamp(column) => column.push(stamp_in(cell)),
            Column::Varchar(column) => column.push(text_in(cell)),
        }
    }

    /// Appends the cell that the text between two places spells as the type, and answers whether it spells one. `roomy`
    /// says that there is room for a cell more. A value is cast and pushed in one match: no cell is made on the way, and
    /// no type is looked up again.
    #[inline(always)]
    pub(crate) fn push_spelled(
        &mut self,
        bytes: &[u8],
        from: usize,
        end: usize,
        roomy: bool,
    ) -> Result<bool, NoMemory>
        requires room { roomy ≡ true → length (cells_of self.old) < room_of self.old }
        requires within { (from ≤ end) × (end ≤ length bytes.now) }
        ensures ty { type_of self.new ≡ type_of self.old }
        ensures value { IfOk result (λ spelled. spelled ≡ is_some (typed_cell (slice_range bytes.now from end) (type_of self.old))) }
        ensures ok { OnOk result (cells_of self.new ≡ cells_of self.old ++ option_to_list (typed_cell (slice_range bytes.now from end) (type_of self.old))) }
        ensures err { OnErr result (cells_of self.new ≡ cells_of self.old) }
        ensures room { room_of self.old ≤ room_of self.new }
    {
        let text = &bytes[from..end];
        match self {
            Column::Boolean(column) => column.push_some(cast_boolean(text), roomy),
            Column::Bigint(column) => column.push_some(cast_bigint(text), roomy),
            Column::Date(column) => column.push_some(cast_date(text), roomy),
            Column::Time(column) => column.push_some(cast_time(text), roomy),
            Column::Timestamp(column) => column.push_some(cast_timestamp(text), roomy),
            Column::Varchar(column) => {
                column.push_text(text)?;
                Ok(true)
            }
        }
    }

    /// Appends a cell that fits the type, where there is room for it.
    pub(crate) fn push_reserved(&mut self, cell: Cell<'_>)
        requires fits { IsTrue (fits (type_of self.old) (datum_of cell)) }
        requires room { length (cells_of self.old) < room_of self.old }
        requires typed { type_of self.old ≢ varchar }
        ensures ty { type_of self.new ≡ type_of self.old }
        ensures value { cells_of self.new ≡ cells_of self.old ++ datum_of cell.entry ∷ [] }
        ensures room { room_of self.new ≡ room_of self.old }
    {
        match self {
            Column::Boolean(column) => column.push_reserved(boolean_in(cell)),
            Column::Bigint(column) => column.push_reserved(number_in(cell)),
            Column::Date(column) => column.push_reserved(date_in(cell)),
            Column::Time(column) => column.push_reserved(time_in(cell)),
            Column::Timestamp(column) => column.push_reserved(stamp_in(cell)),
            Column::Varchar(_) => unreachable!(),
        }
    }

    /// Makes room for more cells.
    pub(crate) fn reserve(&mut self, more: usize) -> Result<(), NoMemory>
        ensures ty { type_of self.new ≡ type_of self.old }
        ensures value { cells_of self.new ≡ cells_of self.old }
        ensures ok { OnOk result (length (cells_of self.old) + more ≤ room_of self.new) }
        ensures room { room_of self.old ≤ room_of self.new }
    {
        match self {
            Column::Boolean(column) => column.reserve(more),
            Column::Bigint(column) => column.reserve(more),
            Column::Date(column) => column.reserve(more),
            Column::Time(column) => column.reserve(more),
            Column::Timestamp(column) => column.reserve(more),
            Column::Varchar(column) => column.reserve(more),
        }
    }

    /// Appends the cells of a column of the same type.
    pub(crate) fn append(&mut self, other: &Column) -> Result<(), NoMemory>
        requires { type_of self.old ≡ type_of other.now }
        ensures ty { type_of self.new ≡ type_of self.old }
        ensures ok { OnOk result (cells_of self.new ≡ cells_of self.old ++ cells_of other.now) }
        ensures err { OnErr result (cells_of self.new ≡ cells_of self.old) }
        ensures room { room_of self.old ≤ room_of self.new }
    {
        match (self, other) {
            (Column::Boolean(column), Column::Boolean(other)) => column.append(other),
            (Column::Bigint(column), Column::Bigint(other)) => column.append(other),
            (Column::Date(column), Column::Date(other)) => column.append(other),
            (Column::Time(column), Column::Time(other)) => column.append(other),
            (Column::Timestamp(column), Column::Timestamp(other)) => column.append(other),
            (Column::Varchar(column), Column::Varchar(other)) => column.append(other),
            _ => unreachable!(),
        }
    }

    /// Keeps the first cells alone.
    pub(crate) fn truncate(&mut self, count: usize)
        ensures ty { type_of self.new ≡ type_of self.old }
        ensures value { cells_of self.new ≡ take count (cells_of self.old) }
        ensures room { room_of self.new ≡ room_of self.old }
    {
        match self {
            Column::Boolean(column) => column.truncate(count),
            Column::Bigint(column) => column.truncate(count),
            Column::Date(column) => column.truncate(count),
            Column::Time(column) => column.truncate(count),
            Column::Timestamp(column) => column.truncate(count),
            Column::Varchar(column) => column.truncate(count),
        }
    }

    /// Takes the extent of a BIGINT column, and where `many` keeps its numbers in as few bytes as they need.
    pub(crate) fn pack(&mut self, alloc: Global, many: bool)
        ensures ty { type_of self.new ≡ type_of self.old }
        ensures value { cells_of self.new ≡ cells_of self.old }
    {
        if let Column::Bigint(column) = self {
            column.measure();
            if many {
                column.pack(alloc);
            }
        }
    }
}
