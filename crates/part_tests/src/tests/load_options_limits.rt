//! Words that are longer than a line of cases should be, and those that none can hold.
use super::words::{is_accepted, words_of};
use load_options::limits::{COLUMN_TYPES_LIMIT, NULLS_LIMIT};
use load_options::{TABLE_NAME_LIMIT, WordRule, WordStop, parse_words};
use std::alloc::Global;
use std::process::Abort;

/// Words before a list, what stands behind each number of the list, and the most pieces.
struct Listed(&'static str, &'static str, usize);

const LISTED: [Listed; 3] = [
    Listed("batch ", ".csv", 1_000),
    Listed("load f.csv column_types=", ":DATE", COLUMN_TYPES_LIMIT),
    Listed("load f.csv nulls=", "", NULLS_LIMIT),
];

/// Whether a line with that many pieces, each a number with a text behind it, is accepted.
fn takes(rt: &impl Abort, alloc: Global, row: &Listed, count: usize) -> bool {
    let mut line = format!(in alloc; "{}0{}", row.0, row.1).expect(rt, "memory");
    for number in 1..count {
        let piece = format!(in alloc; ",{number}{}", row.1).expect(rt, "memory");
        line.push_str(&piece).expect(rt, "memory");
    }
    is_accepted(rt, alloc, &line)
}

#[test]
fn lists_have_at_most_1000_pieces(rt: HostRuntime) {
    for row in &LISTED {
        assert!(rt;
            row.2 == 1_000 && takes(&rt, rt.alloc(), row, 1_000),
            "{}",
            row.0
        );
        assert!(rt; !takes(&rt, rt.alloc(), row, 1_001), "{}", row.0);
    }
}

/// Whether a line is accepted with a name of so many bytes behind it.
fn may_name(rt: &impl Abort, alloc: Global, front: &str, length: usize) -> bool {
    let mut line = String::from_str(alloc, front).expect(rt, "memory");
    for _ in 0..length {
        line.push_str("n").expect(rt, "memory");
    }
    is_accepted(rt, alloc, &line)
}

#[test]
fn a_table_name_has_at_most_1000_bytes(rt: HostRuntime) {
    let front = "convert f.csv to=sqlite table=";
    assert!(rt; may_name(&rt, rt.alloc(), front, TABLE_NAME_LIMIT));
    assert!(rt; !may_name(&rt, rt.alloc(), front, 1_001));
}

#[test]
fn an_output_name_has_at_most_4096_bytes(rt: HostRuntime) {
    let front = "load f.csv output=";
    assert!(rt; may_name(&rt, rt.alloc(), front, 4_096));
    assert!(rt; !may_name(&rt, rt.alloc(), front, 4_097));
}

/// Words that no line can hold, the rule that they break first, and the place of the word.
struct Refused(&'static str, WordRule, usize);

const REFUSED: [Refused; 4] = [
    Refused("", WordRule::NoCommand, 0),
    Refused("load f.csv comment=\n", WordRule::BadValue, 2),
    Refused("convert f.csv table=a\0b", WordRule::BadValue, 2),
    Refused("convert f.csv output=a\0b", WordRule::BadValue, 2),
];

fn is_refused(rt: &impl Abort, alloc: Global, row: &Refused) -> bool {
    match parse_words(alloc, &words_of(rt, alloc, row.0)) {
        Err(WordStop::Fault(fault)) => fault.rule == row.1 && fault.index == row.2,
        _ => false,
    }
}

#[test]
fn words_that_no_line_can_hold_are_refused(rt: HostRuntime) {
    for row in &REFUSED {
        assert!(rt; is_refused(&rt, rt.alloc(), row), "{}", row.0);
    }
}
