// Truth values, dates, times and stamps at the front of a text that goes on behind them, as fields in their row.
ghost use Rattle.std.specs.Prelude.{◌≡◌, ◌≤◌, ◌<◌, ◌+◌, true, length, slice_range, IfSome, Some};
ghost use Rattle.std.specs.Char.{is_ascii_alphabetic};
ghost use Rattle.std.specs.List.{list_all};
ghost use Rattle.value_types.specs.Cast.{boolean_of, date_of, stamp_of, time_of, trimmed};
ghost use Rattle.value_types.specs.Digits.{is_numeral};
ghost use Rattle.value_types.specs.Plain.{is_clock_byte, is_plain, is_stamp_byte};

use super::number::is_numeral;
use crate::ColumnType;
use crate::casting::boolean;
use crate::dates::date;
use crate::times::{stamp, time};
use crate::words::{digit_count, word_at};

/// A truth value that the bytes from a place on spell, and the place behind its last byte.
#[derive(Clone, Copy)]
pub struct FrontTruth {
    pub truth: bool,
    pub end: usize,
}

/// A day that the bytes from a place on spell, and the place behind its last byte.
#[derive(Clone, Copy)]
pub struct FrontDay {
    pub day: i32,
    pub end: usize,
}

/// The microseconds of a time or a stamp that the bytes from a place on spell, and the place behind its last byte.
#[derive(Clone, Copy)]
pub struct FrontMicros {
    pub micros: i64,
    pub end: usize,
}

/// Whether a byte may stand in what `time_front` reads: a digit, a colon or a point.
fn is_clock_byte(byte: u8) -> bool
    ensures { result ≡ is_clock_byte byte }
{
    byte.is_ascii_digit() || byte == b':' || byte == b'.'
}

/// Whether a byte may stand in what `stamp_front` reads.
fn is_stamp_byte(byte: u8) -> bool
    ensures { result ≡ is_stamp_byte byte }
{
    is_clock_byte(byte) || byte == b'-' || byte == b' ' || byte == b'T'
}

/// Whether a byte may stand in a plain value of a type, as the functions of this file and `bigint_front` read it. A text has
/// no plain form.
pub fn is_plain(ty: ColumnType, byte: u8) -> bool
    ensures { result ≡ is_plain ty byte }
{
    match ty {
        ColumnType::Boolean => byte.is_ascii_alphabetic(),
        ColumnType::Bigint | ColumnType::Date => is_numeral(byte),
        ColumnType::Time => is_clock_byte(byte),
        ColumnType::Timestamp => is_stamp_byte(byte),
        ColumnType::Varchar => false,
    }
}

/// The truth value that the bytes from a place on spell, in any case. None also near the bytes' end.
#[inline(always)]
pub fn boolean_front(bytes: &[u8], from: usize) -> Option<FrontTruth>
    requires within { from ≤ length bytes.now }
    ensures within { IfSome result (λ front. (from < front.end) × (front.end < length bytes.now)) }
    ensures value { IfSome result (λ front. boolean_of (trimmed (slice_range bytes.now from front.end)) ≡ Some front.truth) }
    ensures plain { IfSome result (λ front. list_all is_ascii_alphabetic (slice_range bytes.now from front.end) ≡ true) }
{
    if bytes.len() - from < 6 {
        return None;
    }
    // Where a fifth letter ends the word it is `false`.
    let end = if bytes[from + 4].is_ascii_alphabetic() {
        from + 5
    } else {
        from + 4
    };
    let truth = boolean(&bytes[from..end])?;
    Some(FrontTruth { truth, end })
}

/// The day that the bytes from a place on spell, as `YYYY-MM-DD`. None where `cast_date` has to be asked: at a space, and
/// near the bytes' end.
#[inline(always)]
pub fn date_front(bytes: &[u8], from: usize) -> Option<FrontDay>
    requires within { from ≤ length bytes.now }
    ensures within { IfSome result (λ front. (from < front.end) × (front.end < length bytes.now)) }
    ensures value { IfSome result (λ front. date_of (trimmed (slice_range bytes.now from front.end)) ≡ Some front.day) }
    ensures plain { IfSome result (λ front. list_all is_numeral (slice_range bytes.now from front.end) ≡ true) }
{
    if bytes.len() - from < 11 {
        return None;
    }
    let end = from + 10;
    let day = date(&bytes[from..end])?;
    Some(FrontDay { day, end })
}

/// Where a time ends that begins at a place: behind its seconds, or behind the one to six digits of a fraction. It says
/// where to look: `time` looks at each byte.
#[inline(always)]
fn clock_end(bytes: &[u8], from: usize) -> Option<usize>
    requires within { from ≤ length bytes.now }
    ensures { IfSome result (λ end. (from + 8 ≤ end) × (end < length bytes.now)) }
{
    if bytes.len() - from < 17 {
        return None;
    }
    let end = from + 8;
    if bytes[end] != b'.' {
        return Some(end);
    }
    let count = digit_count(word_at(bytes, end + 1));
    if count > 6 {
        return None;
    }
    Some(end + 1 + count)
}

/// The time that the bytes from a place on spell, as `HH:MM:SS` with one to six digits behind a point at most. None where
/// `cast_time` has to be asked: at a space, and near the bytes' end.
#[inline(always)]
pub fn time_front(bytes: &[u8], from: usize) -> Option<FrontMicros>
    requires within { from ≤ length bytes.now }
    ensures within { IfSome result (λ front. (from < front.end) × (front.end < length bytes.now)) }
    ensures value { IfSome result (λ front. time_of (trimmed (slice_range bytes.now from front.end)) ≡ Some front.micros) }
    ensures plain { IfSome result (λ front. list_all is_clock_byte (slice_range bytes.now from front.end) ≡ true) }
{
    let end = clock_end(bytes, from)?;
    let micros = time(&bytes[from..end])?;
    Some(FrontMicros { micros, end })
}

/// The date and time that the bytes from a place on spell, with one space or `T` between them. None where `cast_timestamp`
/// has to be asked: at a date alone, at a space before it, and near the bytes' end.
#[inline(always)]
pub fn stamp_front(bytes: &[u8], from: usize) -> Option<FrontMicros>
    requires within { from ≤ length bytes.now }
    ensures within { IfSome result (λ front. (from < front.end) × (front.end < length bytes.now)) }
    ensures value { IfSome result (λ front. stamp_of (trimmed (slice_range bytes.now from front.end)) ≡ Some front.micros) }
    ensures plain { IfSome result (λ front. list_all is_stamp_byte (slice_range bytes.now from front.end) ≡ true) }
{
    if bytes.len() - from < 11 {
        return None;
    }
    let end = clock_end(bytes, from + 11)?;
    let micros = stamp(&bytes[from..end])?;
    Some(FrontMicros { micros, end })
}
