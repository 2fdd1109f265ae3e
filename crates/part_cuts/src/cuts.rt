//! Where the parts of a file begin.
ghost use Rattle.std.specs.Prelude.{◌≡◌, ℕ, ◌+◌, ◌<◌, ◌≤◌, ◌^◌, ◌⊎◌, length, take, drop, IfOk, MatchResult, OnOk, OnErr, true, Some, slice_get};

use crate::cut_rule::CutRule;
use crate::first_cut::first_cut;
use crate::last_byte::last_byte;
use crate::part::{Part, part_at};
use crate::row_count::count_rows;
use crate::tally::Tally;
use byte_classes::count_line_ends;
use csv_source::NoMemory;
use quote_automaton::State;
use std::alloc::Global;
use std::marker::Model;

/// The most bytes of a file.
pub const MOST_BYTES: u64 = 1 << 62;

/// Reads the data of a file piece by piece, and keeps where parts begin.
#[derive(Drop)]
pub struct Cuts {
    rule: CutRule,
    state: State,
    before: Option<u8>,
    tally: Tally,
    due: u64,
    starts: Vec<Tally>,
}

impl Model for Cuts {
    ghost use Rattle.part_cuts.specs.Reading.{Reading};
    ghost use Rattle.part_cuts.specs.Within.{Ascends, IsCutRule, IsTally};

    ghost Value = { Reading };

    ghost view = { λ c. record { rule = c.rule; state = c.state; before = c.before; tally = c.tally; due = c.due; starts = c.starts.items } };

    ghost invariant = { λ c. IsCutRule c.rule × IsTally c.tally × Ascends c.starts.items c.tally };
}

impl Cuts {
    ghost use Rattle.part_cuts.specs.Reading.{Reading, begins_part, begun, reading, reading_from};
    ghost use Rattle.part_cuts.specs.Part.{parts};
    ghost use Rattle.part_cuts.specs.Passed.{passed};
    ghost use Rattle.part_cuts.specs.Within.{IsCutRule, most_bytes};

    /// The data begin behind a head of so many bytes, in which so many physical lines end.
    pub fn new(alloc: Global, rule: CutRule, bytes: u64, lines: u64) -> Result<Cuts, NoMemory>
        requires rule { IsCutRule rule }
        requires within { bytes ≤ most_bytes }
        requires fits { lines ≤ bytes }
        ensures ok { IfOk result (λ cuts. cuts ≡ reading_from rule bytes lines) }
    {
        let tally = Tally {
            bytes,
            lines,
            rows: 0,
        };
        let mut cuts = Cuts {
            rule,
            state: State::RowStart,
            before: None,
            tally,
            due: 0,
            starts: Vec::new(alloc),
        };
        cuts.begin()?;
        Ok(cuts)
    }

    /// A part begins here.
    fn begin(&mut self) -> Result<(), NoMemory>
        ensures ok { OnOk result (self.new ≡ begun self.old) }
        ensures err { OnErr result (self.new ≡ self.old) }
    {
        self.starts.push(self.tally)?;
        self.due = (self.tally.bytes / self.rule.size + 1) * self.rule.size;
        Ok(())
    }

    /// Goes on over bytes among which no part begins.
    fn go_over(&mut self, bytes: &[u8])
        requires within { self.old.tally.bytes + length bytes.now ≤ most_bytes }
        ensures { self.new ≡ passed self.old bytes.now }
    {
        let counted = count_rows(&self.rule, self.state, bytes);
        self.tally.bytes += bytes.len() as u64;
        self.tally.lines += count_line_ends(bytes, self.before);
        self.tally.rows += counted.rows;
        self.state = counted.state;
        self.before = last_byte(self.before, bytes);
    }

    /// How many of so many bytes stand before the multiple at or behind which a part begins.
    fn before_due(&self, count: usize) -> usize
        ensures high { result ≤ count }
        ensures quiet { (result ≡ 0) ⊎ (self.now.tally.bytes + result ≤ self.now.due) }
        ensures due { result < count → self.now.due ≤ self.now.tally.bytes + result }
    {
        let left = self.due.saturating_sub(self.tally.bytes);
        if left < count as u64 {
            left as usize
        } else {
            count
        }
    }

    /// Goes on over the first `count` bytes at most, up to where the next part begins; answers how many were read.
    fn pass_quiet(&mut self, bytes: &[u8], count: usize) -> usize
        requires within { count ≤ length bytes.now }
        requires fits { self.old.tally.bytes + count ≤ most_bytes }
        ensures high { result ≤ count }
        ensures read { self.new ≡ reading self.old (take result bytes.now) (drop result bytes.now) }
        ensures part { result < count → begins_part self.new (drop result bytes.now) ≡ true }
    {
        let quiet = self.before_due(count);
        self.go_over(&bytes[..quiet]);
        let rest = &bytes[quiet..];
        let cut = first_cut(&self.rule.dialect, self.state, rest, count - quiet);
        self.go_over(&rest[..cut]);
        quiet + cut
    }

    /// Goes on over the first `count` bytes at most, up to and with the first byte of the next part; answers how many were read.
    fn pass_part(&mut self, bytes: &[u8], count: usize) -> Result<usize, NoMemory>
        requires some { 0 < count }
        requires within { count ≤ length bytes.now }
        requires fits { self.old.tally.bytes + count ≤ most_bytes }
        ensures { MatchResult result
            (λ n. (0 < n) × (n ≤ count) × (self.new ≡ reading self.old (take n bytes.now) (drop n bytes.now)))
            (λ _. (n : ℕ) × (n ≤ count) × (self.new ≡ reading self.old (take n bytes.now) (drop n bytes.now))) }
    {
        let at = self.pass_quiet(bytes, count);
        if at == count {
            return Ok(count);
        }
        self.begin()?;
        self.go_over(&bytes[at..at + 1]);
        Ok(at + 1)
    }

    /// Reads on over the first `count` bytes; those behind them are seen, and are to be the two that follow in the file, or
    /// what is left of it. After want of memory some of the bytes are read.
    pub fn pass(&mut self, bytes: &[u8], count: usize) -> Result<(), NoMemory>
        requires within { count ≤ length bytes.now }
        requires fits { self.old.tally.bytes + count ≤ most_bytes }
        ensures ok { OnOk result (self.new ≡ reading self.old (take count bytes.now) (drop count bytes.now)) }
        ensures bytes { OnOk result (self.new.tally.bytes ≡ self.old.tally.bytes + count) }
        ensures err { OnErr result ((n : ℕ) × (n ≤ count) × (self.new ≡ reading self.old (take n bytes.now) (drop n bytes.now))) }
    {
        let mut at = 0;
        while at < count {
            at += self.pass_part(&bytes[at..], count - at)?;
        }
        Ok(())
    }

    /// What lies before the next byte; behind the last one, what the file has.
    pub fn tally(&self) -> Tally
        ensures { result ≡ self.now.tally }
    {
        self.tally
    }

    /// How many parts there are so far.
    pub fn count(&self) -> usize
        ensures { result ≡ length self.now.starts }
    {
        self.starts.len()
    }

    /// A part, counted from 0, where the file ends behind the bytes so far.
    pub fn part(&self, number: usize) -> Part
        requires { number < length self.now.starts }
        ensures { slice_get (parts self.now.starts self.now.tally) number ≡ Some result }
    {
        part_at(&self.starts, self.tally, number)
    }
}
