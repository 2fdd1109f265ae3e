// A tap of different texts.
ghost use Rattle.std.specs.Prelude.{◌≡◌, ◌+◌, List, All};
ghost use Rattle.value_types.specs.Datum.{Datum};
ghost use Rattle.column_taps.specs.Pairs.{pairs_with};
ghost use Rattle.column_taps.specs.KeptPairs.{pairs_in};
ghost use Rattle.column_taps.specs.TextColumns.{HasTexts, pairs_with_texts};
ghost use Rattle.column_taps.specs.declared.kind.TapKind.TheVariants.{Distinct};
ghost use Rattle.column_taps.specs.Seen.{nothing_seen};
ghost use Rattle.column_taps.specs.Taken.{TakenAs};

use crate::lines::push_line;
use crate::pairs::KeptPairs;
use crate::text_columns::{TextColumn, text_columns};
use crate::{RowTap, TapKind, Tapped};
use csv_source::NoMemory;
use itoa::Buffer;
use std::alloc::Global;
use value_types::{Cells, ColumnView};

/// Keeps the different texts of each column, and is over where there would be more than a bound of them in all. Its
/// line is `tap|distinct|COUNT`.
#[derive(Drop)]
pub struct DistinctTap {
    alloc: Global,
    most: u64,
    pairs: KeptPairs,
}

impl DistinctTap {
    /// Has seen nothing.
    pub fn new(alloc: Global, most: u64) -> DistinctTap
        ensures { ⟦<DistinctTap as RowTap>⟧.seen result ≡ nothing_seen (Distinct most) }
    {
        DistinctTap {
            alloc,
            most,
            pairs: KeptPairs::new(alloc),
        }
    }

    /// Takes a row, counted from 0, of which these are the columns of texts.
    fn take_texts(&mut self, columns: &[TextColumn<'_>], row: usize) -> Result<Tapped, NoMemory>
        requires { All (HasTexts (row + 1)) columns.now }
        ensures { (cells : List Datum) → pairs_with 0 (pairs_in self.old.pairs) cells ≡ pairs_with_texts row (pairs_in self.old.pairs) columns.now
            → TakenAs (⟦<DistinctTap as RowTap>⟧.seen self.old) cells result (⟦<DistinctTap as RowTap>⟧.seen self.new) }
    {
        let before = self.pairs.len();
        if self.pairs.add_texts(columns, row).is_err() {
            self.pairs.truncate(before);
            return Err(NoMemory);
        }
        if self.pairs.len() as u64 > self.most {
            self.pairs.truncate(before);
            return Ok(Tapped::Over);
        }
        Ok(Tapped::Goes)
    }
}

impl RowTap for DistinctTap {
    ghost use Rattle.column_taps.specs.Seen.{told_apart};
    ghost use Rattle.column_taps.specs.KeptPairs.{pairs_in};

    ghost seen = { λ tap. told_apart tap.most (pairs_in tap.pairs) };

    fn kind(&self) -> TapKind {
        TapKind::Distinct(self.most)
    }

    fn take(&mut self, row: &Cells) -> Result<Tapped, NoMemory> {
        let before = self.pairs.len();
        if self.pairs.add_row(row).is_err() {
            self.pairs.truncate(before);
            return Err(NoMemory);
        }
        if self.pairs.len() as u64 > self.most {
            self.pairs.truncate(before);
            return Ok(Tapped::Over);
        }
        Ok(Tapped::Goes)
    }

    fn take_columns(
        &mut self,
        rows: usize,
        columns: &[ColumnView<'_>],
    ) -> Result<Option<usize>, NoMemory> {
        let texts = text_columns(self.alloc, columns)?;
        if texts.is_empty() && self.pairs.len() as u64 <= self.most {
            return Ok(Some(rows));
        }
        for row in 0..rows {
            match self.take_texts(&texts, row) {
                Ok(Tapped::Goes) => {}
                Ok(Tapped::Over) => return Ok(Some(row)),
                Err(error) => return Err(error),
            }
        }
        Ok(Some(rows))
    }

    fn write_lines(&self, into: &mut Vec<u8>) -> Result<(), NoMemory> {
        let mut count = Buffer::new();
        push_line(
            &[b"distinct", count.format(self.pairs.len()).as_bytes()],
            into,
        )
    }
}
