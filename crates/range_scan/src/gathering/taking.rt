// The next line of a span is taken.
ghost use Rattle.std.specs.Prelude.{◌≡◌, ◌≤◌, ◌+◌, drop, false, length, IfOk, IfSome, None, OnOk};
ghost use Rattle.quote_automaton.specs.RowEnd.{row_len};
ghost use Rattle.quote_automaton.specs.Rows.{begins_comment};
ghost use Rattle.range_scan.specs.Known.{Knows};
ghost use Rattle.range_scan.specs.Steps.{lines_before, verdict_on, CanTake, Gathers, GathersLine};

use crate::context::Context;
use crate::fast_rows::push_fast;
use crate::gathering::Gathering;
use crate::known::Known;
use crate::pushing::push_row;
use csv_source::NoMemory;
use quote_automaton::begins_comment;
use row_fields::comment_end;

/// From so many rows on that one look didn't find, and where they are more than half of those that are kept, none of the span
/// is tried so any more.
const MOST_MISSES: usize = 64;

impl Gathering {
    /// Appends the row that begins at a place where one look finds it, and answers its end.
    #[inline(always)]
    fn take_fast(
        &mut self,
        context: &Context,
        bytes: &[u8],
        base: u64,
        at: usize,
        known: Known,
    ) -> Result<Option<usize>, NoMemory>
        requires ready { CanTake context.now bytes.now base at self.old }
        requires known { Knows context.now bytes.now at known }
        requires within { known.text_to ≤ length bytes.now }
        requires no_comment { begins_comment context.now.dialect (drop at bytes.now) ≡ false }
        ensures ok { IfOk result (λ row. IfSome row (λ end. (end ≡ at + row_len context.now.dialect bytes.now at) × (end ≤ length bytes.now) × (self.new.book ≡ self.old.book))) }
        ensures value { IfOk result (λ row. IfSome row (λ end. Gathers (verdict_on context.now bytes.now base (lines_before self.old bytes.now at) at) bytes.now at self.old self.new)) }
        ensures none { IfOk result (λ row. row ≡ None → self.new ≡ self.old) }
    {
        if self.is_slow {
            return Ok(None);
        }
        push_fast(&mut self.chunk, context, bytes, at, known)
    }

    /// Counts a row that one look didn't find, if it isn't blank.
    #[inline(never)]
    fn count_miss(&mut self, has_bytes: bool)
        ensures { self.new ≡ record self.old { misses = self.new.misses; is_slow = self.new.is_slow } }
    {
        self.misses = self.misses.saturating_add(has_bytes as usize);
        self.is_slow = self.misses >= MOST_MISSES && self.misses > self.chunk.rows() / 2;
    }

    /// Reads the fields of the row that begins at a place, keeps it or its faults, and answers its end.
    fn take_fields(
        &mut self,
        context: &Context,
        bytes: &[u8],
        base: u64,
        at: usize,
        known: Known,
    ) -> Result<usize, NoMemory>
        requires ready { CanTake context.now bytes.now base at self.old }
        requires known { Knows context.now bytes.now at known }
        requires within { known.text_to ≤ length bytes.now }
        ensures ok { IfOk result (λ end. end ≡ at + row_len context.now.dialect bytes.now at) }
        ensures value { OnOk result (Gathers (verdict_on context.now bytes.now base (lines_before self.old bytes.now at) at) bytes.now at self.old self.new) }
        ensures within { IfOk result (λ end. (end ≤ length bytes.now) × (self.new.book.all ≤ end + 1)) }
    {
        let end = self.fields.read_row(&context.dialect, bytes, at)?;
        let faults = push_row(
            &mut self.chunk,
            &context.schema,
            &bytes[at..end],
            &self.fields,
            end <= known.text_to,
        )?;
        if faults == 0 {
            return Ok(end);
        }
        self.book_faults(context, bytes, base, at, end, faults)?;
        Ok(end)
    }

    /// Reads the line that begins at a place, and answers its end. A row or its faults are kept, and a comment is passed over.
    pub fn take_line(
        &mut self,
        context: &Context,
        bytes: &[u8],
        base: u64,
        at: usize,
        known: Known,
    ) -> Result<usize, NoMemory>
        requires ready { CanTake context.now bytes.now base at self.old }
        requires known { Knows context.now bytes.now at known }
        requires within { known.text_to ≤ length bytes.now }
        ensures ok { IfOk result (λ end. end ≡ at + row_len context.now.dialect bytes.now at) }
        ensures value { OnOk result (GathersLine context.now bytes.now base at self.old self.new) }
        ensures within { IfOk result (λ end. (end ≤ length bytes.now) × (self.new.book.all ≤ end + 1)) }
    {
        if begins_comment(&context.dialect, &bytes[at..]) {
            return Ok(comment_end(&context.dialect, bytes, at));
        }
        match self.take_fast(context, bytes, base, at, known)? {
            Some(end) => Ok(end),
            None => {
                let end = self.take_fields(context, bytes, base, at, known)?;
                self.count_miss(end > at);
                Ok(end)
            }
        }
    }
}
