// Texts that may be null.
ghost use Rattle.std.specs.Prelude.{◌≡◌, ◌≤◌, ◌<◌, ◌+◌, ◌++◌, ◌∷◌, [], length, slice_get, take, vec_capacity, Some, OnErr, OnOk};
ghost use Rattle.std.specs.Option.{option_copied, option_map};
ghost use Rattle.value_types.specs.Texts.{on_last};

use csv_source::NoMemory;
use std::alloc::Global;
use value_types::{Texts, is_marked};

/// Texts, and marks that say which of the first ones are null: such a text is empty, and behind the last mark none is null.
#[derive(Drop)]
pub(crate) struct NullableTexts {
    nulls: Vec<bool>,
    texts: Texts,
    ghost paired: { length nulls.items ≤ length texts },
    ghost roomy: { length texts ≤ vec_capacity nulls },
}

impl NullableTexts {
    ghost use Rattle.column_store.specs.Nullable.{texts_or_null};

    pub(crate) fn new(alloc: Global) -> NullableTexts
        ensures { texts_or_null result ≡ [] }
    {
        NullableTexts {
            nulls: Vec::new(alloc),
            texts: Texts::new(alloc),
        }
    }

    pub(crate) fn len(&self) -> usize
        ensures { result ≡ length (texts_or_null self.now) }
    {
        self.texts.len()
    }

    pub(crate) fn nulls(&self) -> &[bool]
        ensures { result.now ≡ self.now.nulls.items }
    {
        &self.nulls
    }

    pub(crate) fn texts(&self) -> &Texts
        ensures { result.now ≡ self.now.texts }
    {
        &self.texts
    }

    pub(crate) fn get(&self, row: usize) -> Option<&[u8]>
        requires { row < length (texts_or_null self.now) }
        ensures { slice_get (texts_or_null self.now) row ≡ Some (option_copied result) }
    {
        if is_marked(&self.nulls, row) {
            None
        } else {
            Some(self.texts.get(row))
        }
    }

    /// Makes room for the marks of all texts and of more.
    fn reserve_marks(&mut self, more: usize) -> Result<(), NoMemory>
        ensures value { texts_or_null self.new ≡ texts_or_null self.old }
        ensures kept { self.new.texts ≡ self.old.texts }
        ensures ok { OnOk result (length (texts_or_null self.old) + more ≤ vec_capacity self.new.nulls) }
        ensures room { vec_capacity self.old.nulls ≤ vec_capacity self.new.nulls }
    {
        let unmarked = self.texts.len() - self.nulls.len();
        let Some(marks) = unmarked.checked_add(more) else {
            return Err(NoMemory);
        };
        self.nulls.reserve(marks)?;
        Ok(())
    }

    /// Gives each text a mark where marks are to follow, so that these stand beside the texts behind them.
    fn mark_before(&mut self, marks: usize)
        requires { length (texts_or_null self.old) ≤ vec_capacity self.old.nulls }
        ensures all { 0 < marks → length self.new.nulls.items ≡ length self.new.texts }
        ensures value { texts_or_null self.new ≡ texts_or_null self.old }
        ensures kept { self.new.texts ≡ self.old.texts }
        ensures room { vec_capacity self.new.nulls ≡ vec_capacity self.old.nulls }
    {
        while marks > 0 && self.nulls.len() < self.texts.len() {
            self.nulls.push_reserved(false);
        }
    }

    /// Reserves room for marks and the ends of texts; that of the texts depends on their lengths.
    pub(crate) fn reserve(&mut self, more: usize) -> Result<(), NoMemory>
        ensures value { texts_or_null self.new ≡ texts_or_null self.old }
        ensures ok { OnOk result (length (texts_or_null self.old) + more ≤ vec_capacity self.new.nulls) }
        ensures room { vec_capacity self.old.nulls ≤ vec_capacity self.new.nulls }
    {
        self.reserve_marks(more)?;
        self.texts.reserve(more)?;
        Ok(())
    }

    pub(crate) fn push(&mut self, text: Option<&[u8]>) -> Result<(), NoMemory>
        ensures ok { OnOk result (texts_or_null self.new ≡ texts_or_null self.old ++ option_copied text.entry ∷ []) }
        ensures err { OnErr result (texts_or_null self.new ≡ texts_or_null self.old) }
        ensures room { vec_capacity self.old.nulls ≤ vec_capacity self.new.nulls }
    {
        match text {
            Some(text) => self.push_text(text),
            None => {
                self.reserve_marks(1)?;
                self.mark_before(1);
                self.texts.push(b"")?;
                self.nulls.push_reserved(true);
                Ok(())
            }
        }
    }

    /// Appends a text that isn't null.
    #[inline(always)]
    pub(crate) fn push_text(&mut self, text: &[u8]) -> Result<(), NoMemory>
        ensures ok { OnOk result (texts_or_null self.new ≡ texts_or_null self.old ++ Some text.now ∷ []) }
        ensures err { OnErr result (texts_or_null self.new ≡ texts_or_null self.old) }
        ensures room { vec_capacity self.old.nulls ≤ vec_capacity self.new.nulls }
    {
        self.reserve_marks(1)?;
        self.texts.push(text)?;
        Ok(())
    }

    /// Appends bytes to the last text; null stays null.
    #[inline(always)]
    pub(crate) fn extend_last(&mut self, more: &[u8]) -> Result<(), NoMemory>
        requires some { 0 < length (texts_or_null self.old) }
        ensures ok { OnOk result (texts_or_null self.new ≡ on_last (option_map (λ text. text ++ more.now)) (texts_or_null self.old)) }
        ensures err { OnErr result (texts_or_null self.new ≡ texts_or_null self.old) }
        ensures room { vec_capacity self.old.nulls ≤ vec_capacity self.new.nulls }
    {
        self.texts.extend_last(more)
    }

    pub(crate) fn append(&mut self, other: &NullableTexts) -> Result<(), NoMemory>
        ensures ok { OnOk result (texts_or_null self.new ≡ texts_or_null self.old ++ texts_or_null other.now) }
        ensures err { OnErr result (texts_or_null self.new ≡ texts_or_null self.old) }
        ensures room { vec_capacity self.old.nulls ≤ vec_capacity self.new.nulls }
    {
        self.reserve_marks(other.len())?;
        self.mark_before(other.nulls.len());
        self.texts.append(&other.texts)?;
        self.nulls.extend_from_slice(&other.nulls)?;
        Ok(())
    }

    pub(crate) fn truncate(&mut self, count: usize)
        ensures value { texts_or_null self.new ≡ take count (texts_or_null self.old) }
        ensures room { vec_capacity self.new.nulls ≡ vec_capacity self.old.nulls }
    {
        self.nulls.truncate(count);
        self.texts.truncate(count);
    }
}
