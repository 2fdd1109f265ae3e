//! The table of states, the ends of rows, and the first row that begins in a range.
use super::dialects::{backslashes, commas, commented};
use byte_classes::Dialect;
use quote_automaton::State::{
    Broken, Comment, CrSeen, Escape, FieldStart, Plain, QuoteSeen, Quoted, RowStart,
};
use quote_automaton::{RowEnd, State, begins_comment, first_row_start, fold, row_end, step};

/// A byte of each class, in the order of the table's columns.
const CLASSES: [u8; 7] = [b'\n', b'\r', b',', b'"', b'\\', b'#', b'x'];

/// A state, and the states behind it by the class of the byte.
struct Row(State, [State; 7]);

const TABLE: [Row; 9] = [
    Row(
        RowStart,
        [RowStart, CrSeen, FieldStart, Quoted, Plain, Comment, Plain],
    ),
    Row(
        FieldStart,
        [RowStart, CrSeen, FieldStart, Quoted, Plain, Plain, Plain],
    ),
    Row(
        Plain,
        [RowStart, CrSeen, FieldStart, Plain, Plain, Plain, Plain],
    ),
    Row(
        Quoted,
        [Quoted, Quoted, Quoted, QuoteSeen, Escape, Quoted, Quoted],
    ),
    Row(
        Escape,
        [Quoted, Quoted, Quoted, Quoted, Quoted, Quoted, Quoted],
    ),
    Row(
        QuoteSeen,
        [RowStart, CrSeen, FieldStart, Broken, Broken, Broken, Broken],
    ),
    Row(
        Broken,
        [RowStart, CrSeen, Broken, Broken, Broken, Broken, Broken],
    ),
    Row(
        CrSeen,
        [RowStart, CrSeen, FieldStart, Quoted, Plain, Comment, Plain],
    ),
    Row(
        Comment,
        [
            RowStart, CrSeen, Comment, Comment, Comment, Comment, Comment,
        ],
    ),
];

/// Whether each byte leads from a state to the one of the table, read alone and before others that stay there.
fn leads_as_told(dialect: &Dialect, row: &Row) -> bool {
    for (class, byte) in CLASSES.iter().enumerate() {
        if step(dialect, row.0, *byte) != row.1[class]
            || fold(dialect, row.0, &[*byte]) != row.1[class]
        {
            return false;
        }
    }
    true
}

#[test]
fn bytes_lead_from_state_to_state(rt: HostRuntime) {
    let dialect = commented(&rt, backslashes(&rt));
    for row in &TABLE {
        assert!(rt; leads_as_told(&dialect, row));
    }
    assert!(rt; step(&commas(&rt), QuoteSeen, b'"') == Quoted);
}

#[test]
fn rows_end_outside_quotes(rt: HostRuntime) {
    let text = b"a,\"x,\"\"y\"\"\nz\",b\n";
    let comma = commas(&rt);
    assert!(rt; !begins_comment(&comma, &text[0..]));
    assert!(rt; row_end(&comma, text, 0, 15) == RowEnd::At(15));
    assert!(rt; row_end(&comma, text, 0, 14) == RowEnd::Over);
}

#[test]
fn the_first_row_of_a_range_is_found(rt: HostRuntime) {
    let (comma, mixed) = (commas(&rt), b"1,2\r\n3,4\r5,6\n");
    assert!(rt; first_row_start(&comma, Plain, mixed, 1, 13) == Some(5));
    assert!(rt; first_row_start(&comma, CrSeen, mixed, 4, 13) == Some(5));
    assert!(rt; first_row_start(&comma, Plain, mixed, 6, 9) == None);
    assert!(rt; first_row_start(&comma, Quoted, mixed, 1, 13) == None);
}
