//! Parts of ranges: what one tells of its range, and how they are joined.
ghost use Rattle.std.specs.Prelude.{IfOk};
ghost use Rattle.range_scan.specs.Scanned.{HasColumns};

use super::contexts::context;
use super::dialects::commas;
use csv_source::{NoMemory, OpenGate};
use quote_automaton::State;
use range_scan::{CALLER, Context, Joined, Part, RangeScanner, Span, View, scan, sum_of};
use std::alloc::Global;

fn is_bad_part(part: &Part) -> bool {
    part.number() == 7
        && part.opened() == State::RowStart
        && part.end() == State::FieldStart
        && part.line_ends() == 1
        && part.bad()
        && part.table().rows() == 0
        && part.book().len() == 2
}

/// Whether a range of a text tells its number, its states, its line end and its two faults.
fn tells_its_range(alloc: Global, context: &Context) -> Result<bool, NoMemory>
    requires { HasColumns context.now.schema }
{
    let span = Span {
        number: 7,
        from: 2,
        to: 6,
    };
    let part = scan(alloc, context, b"1\nx\n\xFF,2", 0, &span, State::RowStart)?;
    Ok(is_bad_part(&part))
}

/// Whether a range that opens inside quotes, and is guessed to open at a row's start, is joined without a row.
fn is_scanned_again(alloc: Global, context: &Context) -> Result<bool, NoMemory>
    requires { HasColumns context.now.schema }
{
    let gate = &OpenGate;
    let scanner = RangeScanner {
        alloc,
        context,
        gate,
    };
    let view = View {
        bytes: b"1,\"\n2,3\n\"\n4,5\n",
        base: 0,
    };
    let span = Span {
        number: 1,
        from: 4,
        to: 8,
    };
    let mut joined = Joined::new(alloc, context, State::Quoted)?;
    let first = scanner.opening(&view, &span, joined.end);
    let kept = scanner.scan(CALLER, &view, &span, first)?;
    let rows = kept.table().rows();
    let part = scanner.part_in(&view, &span, joined.end, Some(kept))?;
    joined.add_range(part, first, 4)?;
    Ok(first == State::RowStart && rows == 1 && is_joined_again(&joined))
}

fn is_joined_again(joined: &Joined) -> bool {
    joined.table.rows() == 0
        && joined.end == State::Quoted
        && joined.line_ends == 1
        && joined.rescans == 1
        && joined.rescanned == 4
}

#[test]
fn parts_tell_their_ranges_and_are_joined(rt: HostRuntime) {
    let context = context(rt.alloc(), commas(&rt)).expect(&rt, "memory");
    assert!(rt; tells_its_range(rt.alloc(), &context).expect(&rt, "memory"));
    assert!(rt; is_scanned_again(rt.alloc(), &context).expect(&rt, "memory"));
}

#[test]
fn numbers_are_added_up_to_the_largest(rt: HostRuntime) {
    assert!(rt; sum_of(2, 3) == Ok(5) && sum_of(u64::MAX, 1).is_err());
}
