// Cells of a row that is looked at once: its values are cast where they stand, and its texts come in runs.
ghost use Rattle.std.specs.Prelude.{◌≡◌, ◌≤◌, ◌<◌, ◌-◌, ◌++◌, ◌∷◌, [], length, slice_get, slice_range, IfOk, IfSome, None, OnErr, OnOk, Some};
ghost use Rattle.std.specs.Option.{option_to_list};
ghost use Rattle.value_types.specs.Datum.{text, typed};
ghost use Rattle.value_types.specs.declared.types.ColumnType.{ColumnType};
ghost use Rattle.value_types.specs.declared.types.ColumnType.TheVariants.{Bigint, Varchar};
ghost use Rattle.value_types.specs.declared.types.Value.TheVariants.{Int};
ghost use Rattle.value_types.specs.Plain.{IsPlainAt};
ghost use Rattle.value_types.specs.Texts.{on_last};
ghost use Rattle.column_store.specs.LongerText.{longer};
ghost use Rattle.column_store.specs.NextCell.{spelled_cell};

use crate::chunk::Chunk;
use csv_source::NoMemory;

impl Chunk {
    /// Appends a number to the row under way, whose next column is BIGINT.
    #[inline(always)]
    pub fn push_bigint(&mut self, number: i64) -> Result<(), NoMemory>
        requires next { slice_get self.old.types (length self.old.unfinished) ≡ Some Bigint }
        ensures ok { OnOk result (self.new ≡ record self.old { unfinished = self.old.unfinished ++ typed (Int number) ∷ [] }) }
        ensures err { OnErr result (self.new ≡ self.old) }
    {
        let roomy = self.spare > 0;
        self.columns[self.begun].push_bigint(number, roomy)?;
        self.begun += 1;
        Ok(())
    }

    /// Appends the value of the next column's type whose plain form begins at a place to the row under way, and answers where
    /// it ends. None, and nothing is appended, where `push_spelled` has to be asked.
    #[inline(always)]
    pub fn push_front(&mut self, bytes: &[u8], from: usize) -> Result<Option<usize>, NoMemory>
        requires next { length self.old.unfinished < length self.old.types }
        requires within { from ≤ length bytes.now }
        ensures at { IfOk result (λ found. IfSome found (λ end. (ty : ColumnType) → slice_get self.old.types (length self.old.unfinished) ≡ Some ty → IsPlainAt ty bytes.now from end)) }
        ensures ok { IfOk result (λ found. IfSome found (λ end. self.new ≡ record self.old { unfinished = self.old.unfinished ++ option_to_list (spelled_cell self.old (slice_range bytes.now from end)) })) }
        ensures none { IfOk result (λ found. found ≡ None → self.new ≡ self.old) }
        ensures err { OnErr result (self.new ≡ self.old) }
    {
        let roomy = self.spare > 0;
        match self.columns[self.begun].push_front(bytes, from, roomy)? {
            Some(end) => {
                self.begun += 1;
                Ok(Some(end))
            }
            None => Ok(None),
        }
    }

    /// Appends a text to the row under way, whose next column is VARCHAR.
    #[inline(always)]
    pub fn push_text(&mut self, bytes: &[u8]) -> Result<(), NoMemory>
        requires next { slice_get self.old.types (length self.old.unfinished) ≡ Some Varchar }
        ensures ok { OnOk result (self.new ≡ record self.old { unfinished = self.old.unfinished ++ text bytes.now ∷ [] }) }
        ensures err { OnErr result (self.new ≡ self.old) }
    {
        self.columns[self.begun].push_text(bytes)?;
        self.begun += 1;
        Ok(())
    }

    /// Appends bytes to the last text of the row under way, so that a text whose bytes come in runs is copied once. Null
    /// stays null.
    #[inline(always)]
    pub fn extend_text(&mut self, more: &[u8]) -> Result<(), NoMemory>
        requires some { 0 < length self.old.unfinished }
        requires last { slice_get self.old.types (length self.old.unfinished - 1) ≡ Some Varchar }
        ensures ok { OnOk result (self.new ≡ record self.old { unfinished = on_last (longer more.now) self.old.unfinished }) }
        ensures err { OnErr result (self.new ≡ self.old) }
    {
        self.columns[self.begun - 1].extend_text(more)?;
        Ok(())
    }
}
