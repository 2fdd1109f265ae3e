//! The guess of the state in which a range opens, and how a text is cut into ranges.
use super::dialects::{backslashes, commas, commented};
use byte_classes::Dialect;
use quote_automaton::State;
use range_guess::{Span, Stretch, cut, guess, opening_in};

/// A range, the byte before it, and the guess.
struct Guess(&'static str, Option<u8>, State);

const DOUBLED: [Guess; 8] = [
    Guess("5\"", Some(b','), State::Quoted),
    Guess("y\n", Some(b'"'), State::QuoteSeen),
    Guess("1,", Some(b'\n'), State::RowStart),
    Guess("2,\"b", Some(b'\n'), State::RowStart),
    Guess("z\"\n", Some(b'\n'), State::Quoted),
    Guess("\n3,c", Some(b'b'), State::Plain),
    Guess("\n", Some(b'\r'), State::CrSeen),
    Guess("\"y\"\"", Some(b'"'), State::QuoteSeen),
];

const ESCAPED: [Guess; 3] = [
    Guess("\"b\",", Some(b'\\'), State::Plain),
    Guess("a\\\"b\"", Some(b'"'), State::Quoted),
    Guess("a", None, State::RowStart),
];

const COMMENTED: [Guess; 6] = [
    Guess("\"x\n", Some(b'#'), State::Plain),
    Guess("x\n3", Some(b'"'), State::QuoteSeen),
    Guess("#\"", Some(b','), State::FieldStart),
    Guess("\"#\"a", Some(b'\n'), State::Quoted),
    Guess("#a", Some(b'\n'), State::RowStart),
    Guess("#a", Some(b'\r'), State::CrSeen),
];

fn are_guessed(dialect: &Dialect, rows: &[Guess]) -> bool {
    for row in rows {
        if guess(dialect, row.0.as_bytes(), row.1) != row.2 {
            return false;
        }
    }
    true
}

#[test]
fn ranges_are_guessed_by_their_first_pair(rt: HostRuntime) {
    assert!(rt; are_guessed(&commas(&rt), &DOUBLED));
    assert!(rt; are_guessed(&backslashes(&rt), &ESCAPED));
    assert!(rt; are_guessed(&commented(&rt, commas(&rt)), &COMMENTED));
}

#[test]
fn the_last_range_may_be_shorter(rt: HostRuntime) {
    let ranges = cut(10, 4);
    assert!(rt; ranges.count() == 3);
    assert!(rt; ranges.bounds(1) == (4, 8) && ranges.bounds(2) == (8, 10));
    assert!(rt; cut(0, 4).count() == 0);
}

/// Ranges 63 to 65, of which the second begins a group.
const STRETCH: Stretch = Stretch {
    first_range: 63,
    from: 0,
    to: 9,
    range_size: 4,
};

#[test]
fn a_group_opens_where_the_range_before_it_ends(rt: HostRuntime) {
    assert!(rt; STRETCH.count() == 3);
    let (dialect, text) = (commas(&rt), b"1,2\n3,4\n5");
    let first = STRETCH.span_of(1);
    let next = STRETCH.span_of(2);
    assert!(rt;
        first
            == Span {
                number: 64,
                from: 4,
                to: 8
            }
    );
    assert!(rt; opening_in(&dialect, text, &first, State::Quoted) == State::Quoted);
    assert!(rt; opening_in(&dialect, text, &next, State::Quoted) == State::RowStart);
}
