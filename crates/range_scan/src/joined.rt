//! What ranges that follow one another come to.
ghost use Rattle.std.specs.Prelude.{◌≡◌, IfOk, OnOk};

mod growing;

use crate::appending::{append_book, sum_of};
use crate::context::Context;
use crate::part::Part;
use column_store::Table;
use csv_source::NoMemory;
use quote_automaton::State;
use range_guess::is_again;
use reject_book::Book;
use std::alloc::Global;

/// The parts of ranges that follow one another, each in its true state, as one.
#[derive(Drop)]
pub struct Joined {
    /// The state at the end of the last range, in which the next one opens.
    pub end: State,
    /// The good rows that begin in the ranges, in order.
    pub table: Table,
    /// The rejects of the faulty ones, whose lines are counted from the start of the first range.
    pub book: Book,
    /// The line ends of the ranges, inside quotes too.
    pub line_ends: u64,
    /// How many of the ranges were scanned again, since their guess was wrong, and their bytes.
    pub rescans: u64,
    pub rescanned: u64,
}

impl Joined {
    ghost use Rattle.range_scan.specs.Joined.{IsBegun, IsOfRange, IsAppended, AddsRange};

    /// No range yet, and the first one opens in `first`.
    pub fn new(alloc: Global, context: &Context, first: State) -> Result<Joined, NoMemory>
        ensures { IfOk result (λ joined. IsBegun context.now first joined) }
    {
        Ok(Joined {
            end: first,
            table: Table::new(alloc, &context.schema.types)?,
            book: Book::new(alloc, context.keep),
            line_ends: 0,
            rescans: 0,
            rescanned: 0,
        })
    }

    /// One range of so many bytes, which counts as scanned again where its guess was wrong.
    pub fn of(part: Part, wrong: bool, bytes: u64) -> Joined
        ensures { IsOfRange part wrong bytes result }
    {
        let Part {
            end,
            table,
            book,
            line_ends,
            ..
        } = part;
        let (rescans, rescanned) = if wrong { (1, bytes) } else { (0, 0) };
        Joined {
            end,
            table,
            book,
            line_ends,
            rescans,
            rescanned,
        }
    }

    /// Appends what the next ranges come to, without a copy of a row or a reject. After want of memory it is of no use.
    pub fn append(&mut self, next: Joined) -> Result<(), NoMemory>
        requires types { self.old.table.types ≡ next.table.types }
        requires same { self.old.book.keep ≡ next.book.keep }
        ensures ok { OnOk result (IsAppended next self.old self.new) }
    {
        let Joined {
            end,
            table,
            book,
            line_ends,
            rescans,
            rescanned,
        } = next;
        let lines = self.line_ends;
        self.end = end;
        append_book(&mut self.book, book, lines)?;
        self.table.take_in(table)?;
        self.line_ends = sum_of(lines, line_ends)?;
        self.rescans = sum_of(self.rescans, rescans)?;
        self.rescanned = sum_of(self.rescanned, rescanned)?;
        Ok(())
    }
    /// Joins the next range, of so many bytes, by its part in the state in which those before it end. It counts as scanned again
    /// where it was read from another state first. After want of memory the join is of no use.
    pub fn add_range(&mut self, part: Part, first: State, bytes: u64) -> Result<(), NoMemory>
        requires opened { part.opened ≡ self.old.end }
        requires types { self.old.table.types ≡ part.types }
        requires same { self.old.book.keep ≡ part.book.keep }
        ensures ok { OnOk result (AddsRange part first bytes self.old self.new) }
    {
        let again = is_again(first, self.end);
        self.append(Joined::of(part, again, bytes))
    }
}
