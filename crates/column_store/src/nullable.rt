// Values that may be null.
ghost use Rattle.std.specs.Prelude.{◌≡◌, ◌≤◌, ◌<◌, ◌+◌, ◌++◌, ◌∷◌, [], true, is_some, length, map, slice_get, take, vec_capacity, IfOk, Some, OnErr, OnOk};
ghost use Rattle.std.specs.Option.{option_to_list};

use csv_source::NoMemory;
use std::alloc::Global;
use value_types::is_marked;

/// Values of one type, and marks that say which of the first ones are null: such a value counts for nothing, and behind
/// the last mark none is null. So a column without nulls has no mark.
#[derive(Drop)]
pub(crate) struct Nullable<T> {
    nulls: Vec<bool>,
    values: Vec<T>,
    ghost paired: { length nulls.items ≤ length values.items },
    ghost roomy: { length values.items ≤ vec_capacity nulls },
}

impl<T: Copy + Default> Nullable<T> {
    ghost use Rattle.column_store.specs.Nullable.{options, room};

    pub(crate) fn new(alloc: Global) -> Nullable<T>
        ensures { options result ≡ [] }
    {
        Nullable {
            nulls: Vec::new(alloc),
            values: Vec::new(alloc),
        }
    }

    pub(crate) fn len(&self) -> usize
        ensures { result ≡ length (options self.now) }
    {
        self.values.len()
    }

    pub(crate) fn nulls(&self) -> &[bool]
        ensures { result.now ≡ self.now.nulls.items }
    {
        &self.nulls
    }

    pub(crate) fn values(&self) -> &[T]
        ensures { result.now ≡ self.now.values.items }
    {
        &self.values
    }

    pub(crate) fn get(&self, row: usize) -> Option<T>
        requires { row < length (options self.now) }
        ensures { slice_get (options self.now) row ≡ Some result }
    {
        if is_marked(&self.nulls, row) {
            None
        } else {
            Some(self.values[row])
        }
    }

    pub(crate) fn reserve(&mut self, more: usize) -> Result<(), NoMemory>
        ensures value { options self.new ≡ options self.old }
        ensures ok { OnOk result (length (options self.old) + more ≤ room self.new) }
        ensures room { room self.old ≤ room self.new }
    {
        let unmarked = self.values.len() - self.nulls.len();
        let Some(marks) = unmarked.checked_add(more) else {
            return Err(NoMemory);
        };
        self.nulls.reserve(marks)?;
        self.values.reserve(more)?;
        Ok(())
    }

    pub(crate) fn push(&mut self, value: Option<T>) -> Result<(), NoMemory>
        ensures ok { OnOk result (options self.new ≡ options self.old ++ value ∷ []) }
        ensures err { OnErr result (options self.new ≡ options self.old) }
        ensures room { room self.old ≤ room self.new }
    {
        self.reserve(1)?;
        self.push_reserved(value);
        Ok(())
    }

    pub(crate) fn push_reserved(&mut self, value: Option<T>)
        requires { length (options self.old) < room self.old }
        ensures value { options self.new ≡ options self.old ++ value ∷ [] }
        ensures room { room self.new ≡ room self.old }
    {
        match value {
            Some(value) => self.values.push_reserved(value),
            None => {
                self.mark_before(1);
                self.nulls.push_reserved(true);
                self.values.push_reserved(T::default());
            }
        }
    }

    /// Gives each value a mark where marks are to follow, so that these stand beside the values behind them.
    fn mark_before(&mut self, marks: usize)
        requires { length (options self.old) ≤ room self.old }
        ensures all { 0 < marks → length self.new.nulls.items ≡ length self.new.values.items }
        ensures value { options self.new ≡ options self.old }
        ensures kept { self.new.values ≡ self.old.values }
        ensures room { room self.new ≡ room self.old }
    {
        while marks > 0 && self.nulls.len() < self.values.len() {
            self.nulls.push_reserved(false);
        }
    }

    /// Makes room for a value, unless there is some already.
    #[inline(always)]
    fn make_room(&mut self, roomy: bool) -> Result<(), NoMemory>
        requires { roomy ≡ true → length (options self.old) < room self.old }
        ensures value { options self.new ≡ options self.old }
        ensures ok { OnOk result (length (options self.old) < room self.new) }
        ensures room { room self.old ≤ room self.new }
    {
        if roomy {
            return Ok(());
        }
        self.reserve(1)
    }

    /// Appends a value where there is one, and answers whether there is. `roomy` says that there is room for it.
    #[inline(always)]
    pub(crate) fn push_some(&mut self, value: Option<T>, roomy: bool) -> Result<bool, NoMemory>
        requires { roomy ≡ true → length (options self.old) < room self.old }
        ensures value { IfOk result (λ some. some ≡ is_some value) }
        ensures ok { OnOk result (options self.new ≡ options self.old ++ map Some (option_to_list value)) }
        ensures err { OnErr result (options self.new ≡ options self.old) }
        ensures room { room self.old ≤ room self.new }
    {
        let Some(value) = value else {
            return Ok(false);
        };
        self.make_room(roomy)?;
        self.push_value(value);
        Ok(true)
    }

    /// Appends a value that isn't null, where there is room for it.
    #[inline(always)]
    pub(crate) fn push_value(&mut self, value: T)
        requires { length (options self.old) < room self.old }
        ensures value { options self.new ≡ options self.old ++ Some value ∷ [] }
        ensures room { room self.new ≡ room self.old }
    {
        self.values.push_reserved(value);
    }

    pub(crate) fn append(&mut self, other: &Nullable<T>) -> Result<(), NoMemory>
        ensures ok { OnOk result (options self.new ≡ options self.old ++ options other.now) }
        ensures err { OnErr result (options self.new ≡ options self.old) }
        ensures room { room self.old ≤ room self.new }
    {
        self.reserve(other.len())?;
        self.mark_before(other.nulls.len());
        self.nulls.extend_from_slice(&other.nulls)?;
        self.values.extend_from_slice(&other.values)?;
        Ok(())
    }

    pub(crate) fn truncate(&mut self, count: usize)
        ensures value { options self.new ≡ take count (options self.old) }
        ensures room { room self.new ≡ room self.old }
    {
        self.nulls.truncate(count);
        self.values.truncate(count);
    }
}
