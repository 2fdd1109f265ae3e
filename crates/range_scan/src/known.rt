//! What is known of a span's bytes before its rows are read.
ghost use Rattle.std.specs.Prelude.{◌≡◌, ◌≤◌, ◌⊎◌, true, length};
ghost use Rattle.column_store.specs.RowsOfColumns.{HasNoTexts};
ghost use Rattle.range_scan.specs.declared.context.Context.{Context};
ghost use Rattle.range_scan.specs.FastRows.{IsKindOf};
ghost use Rattle.range_scan.specs.Known.{Knows};

use crate::context::Context;
use crate::fast_rows::FastRows;
use crate::places::text_end;

/// Behind bytes that aren't UTF-8 it is looked so far at once: more of them may follow.
const NEAR: usize = 1024;

/// What one look at a span and its context tells of each row.
#[derive(Clone, Copy)]
pub struct Known {
    /// The place up to which the bytes are UTF-8.
    pub text_to: usize,
    /// Behind this place it is looked again whether they are: nowhere, where nobody has to know.
    pub again: usize,
    /// As what rows are tried by one look.
    pub rows: FastRows,
}

impl Known {
    /// What is known of the bytes between two places. Where rows that are found by one look are ASCII as such, other rows are
    /// few, and each is looked at by itself.
    pub fn between(context: &Context, bytes: &[u8], from: usize, to: usize) -> Known
        requires within { (from ≤ to) × (to ≤ length bytes.now) }
        ensures known { Knows context.now bytes.now from result }
        ensures within { result.text_to ≤ to }
    {
        let rows = FastRows::of(context);
        if rows.is_ascii() {
            return Known {
                text_to: from,
                again: usize::MAX,
                rows,
            };
        }
        let text_to = text_end(bytes, from, to);
        Known {
            text_to,
            again: text_to,
            rows,
        }
    }

    /// What is known once the rows before a place were read: behind bytes that aren't UTF-8 it is looked again.
    #[inline(always)]
    pub fn behind(self, bytes: &[u8], at: usize, to: usize) -> Known
        requires within { (at ≤ to) × (to ≤ length bytes.now) }
        ensures known { (context : Context) → Knows context bytes.now at self → Knows context bytes.now at result }
        ensures within { self.text_to ≤ to → result.text_to ≤ to }
    {
        if at <= self.again {
            return self;
        }
        let text_to = text_end(bytes, at, at + (to - at).min(NEAR));
        Known {
            text_to,
            again: text_to,
            rows: self.rows,
        }
    }

    /// Whether a row that one look found, and that ends at a place, is known to be UTF-8.
    #[inline(always)]
    pub fn is_text(self, end: usize) -> bool
        ensures { (context : Context) → result ≡ true → IsKindOf context self.rows → HasNoTexts context.schema.types ⊎ (end ≤ self.text_to) }
    {
        self.rows.is_ascii() || end <= self.text_to
    }
}
