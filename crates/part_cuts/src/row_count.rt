//! How many rows begin among some bytes.
ghost use Rattle.std.specs.Prelude.{◌≡◌, ◌+◌, ◌<◌, ◌≤◌, length};
ghost use Rattle.quote_automaton.specs.Automaton.{state_after};
ghost use Rattle.part_cuts.specs.Counted.{GoesOn};
ghost use Rattle.part_cuts.specs.Passed.{rows_begun};

use crate::block_rows::rows_in_block;
use crate::cut_rule::CutRule;
use crate::row_bytes::counts_row;
use byte_classes::{bytes_at, class_of};
use quote_automaton::{State, place_of, run_end, state_of, step};

/// How far bytes are read: the place, the state in which the byte at it is read, and how many rows that count begin before.
#[derive(Clone, Copy)]
pub(crate) struct Counted {
    pub(crate) at: usize,
    pub(crate) state: State,
    pub(crate) rows: u64,
}

/// Goes on block by block, as long as no byte of a block is out of its place.
fn pass_blocks(rule: &CutRule, bytes: &[u8], from: Counted) -> Counted
    requires within { from.at ≤ length bytes.now }
    requires few { from.rows ≤ from.at }
    ensures { GoesOn rule.now bytes.now from result }
{
    let Some(start) = place_of(&rule.dialect, from.state) else {
        return from;
    };
    let mut place = start;
    let mut at = from.at;
    let mut rows = from.rows;
    while bytes.len() - at >= 64 {
        let Some(block) = rows_in_block(rule, &bytes_at(bytes, at), place) else {
            break;
        };
        rows += block.rows;
        place = block.next;
        at += 64;
    }
    Counted {
        at,
        state: state_of(&rule.dialect, place),
        rows,
    }
}

/// Goes on over a byte.
#[inline(always)]
fn next_byte(rule: &CutRule, bytes: &[u8], from: Counted) -> Counted
    requires within { from.at < length bytes.now }
    requires few { from.rows ≤ from.at }
    ensures on { GoesOn rule.now bytes.now from result }
    ensures far { result.at ≡ from.at + 1 }
{
    let byte = bytes[from.at];
    let counts = counts_row(rule.columns, from.state, class_of(&rule.dialect, byte));
    Counted {
        at: from.at + 1,
        state: step(&rule.dialect, from.state, byte),
        rows: from.rows + u64::from(counts),
    }
}

/// Goes on byte by byte up to a place, and over the run of bytes behind it that change nothing.
fn walk(rule: &CutRule, bytes: &[u8], from: Counted, until: usize) -> Counted
    requires low { from.at ≤ until }
    requires high { until ≤ length bytes.now }
    requires few { from.rows ≤ from.at }
    ensures on { GoesOn rule.now bytes.now from result }
    ensures far { until ≤ result.at }
{
    let mut counted = from;
    while counted.at < until {
        let next = next_byte(rule, bytes, counted);
        let at = run_end(&rule.dialect, next.state, bytes, next.at);
        counted = Counted { at, ..next };
    }
    counted
}

/// Reads bytes from a state on. Behind a block whose rows aren't counted at once so many bytes are walked, so that few blocks
/// are looked at in vain.
pub(crate) fn count_rows(rule: &CutRule, state: State, bytes: &[u8]) -> Counted
    ensures state { result.state ≡ state_after rule.now.dialect state bytes.now }
    ensures rows { result.rows ≡ rows_begun rule.now.dialect rule.now.columns state bytes.now }
    ensures few { result.rows ≤ length bytes.now }
{
    let mut counted = Counted {
        at: 0,
        state,
        rows: 0,
    };
    while counted.at < bytes.len() {
        let passed = pass_blocks(rule, bytes, counted);
        let until = passed.at + (bytes.len() - passed.at).min(64);
        counted = walk(rule, bytes, passed, until);
    }
    counted
}
