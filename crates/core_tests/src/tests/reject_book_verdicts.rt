//! The verdict of a row by itself, and a book that keeps the first reject.
ghost use Rattle.std.specs.Prelude.{◌<◌, ◌^◌, length};

use super::contexts::schema;
use super::dialects::commas;
use quote_automaton::{begins_comment, row_end};
use reject_book::{Book, Keep, Reject, RowPlace, Verdict, judge_row, kind_name};
use std::alloc::Global;
use std::process::Abort;
use value_types::{Cell, ColumnType, Value};

/// The verdict of the first row of a text, which is the second line of an input, from its place 9 on.
fn judged(rt: &impl Abort, alloc: Global, text: &[u8]) -> Verdict
    requires some { 0 < length text.now }
    requires room { length text.now < 2 ^ 32 }
{
    let place = RowPlace {
        scan_id: 0,
        file_id: 0,
        line: 2,
        start: 9,
    };
    let (dialect, schema) = (
        commas(rt),
        schema(alloc, ColumnType::Bigint).expect(rt, "memory"),
    );
    assert!(rt; !begins_comment(&dialect, &text[0..]));
    let end = row_end(&dialect, text, 0, schema.max_line_size);
    judge_row(alloc, &dialect, &schema, text, 0, end, &place).expect(rt, "memory")
}

fn is_good(verdict: &Verdict) -> bool {
    match verdict {
        Verdict::Good(row) => {
            row.len() == 2
                && matches!(row.cell(0), Cell::Value(Value::Int(7)))
                && matches!(row.cell(1), Cell::Null)
        }
        _ => false,
    }
}

fn is_of_cast(reject: &Reject) -> bool {
    reject.line == 2
        && reject.line_byte_position == 10
        && reject.byte_position == 10
        && reject.column_idx == 1
        && reject.column_name.as_slice() == b"a".as_slice()
        && kind_name(reject.error_type) == "CAST"
        && reject.csv_line.as_slice() == b"x,b".as_slice()
}

/// Whether a book that keeps one reject has that of a faulty row.
fn keeps_the_first(rt: &impl Abort, alloc: Global) -> bool {
    let Verdict::Faulty(rejects) = judged(rt, alloc, b"x,b\n") else {
        return false;
    };
    assert!(rt; rejects.len() == 1);
    let mut book = Book::new(alloc, Keep::First(1));
    book.add_all(rejects).expect(rt, "memory");
    book.len() == 1 && book.is_full() && book.all() == 1 && is_of_cast(book.get(0))
}

#[test]
fn a_row_is_good_or_faulty(rt: HostRuntime) {
    assert!(rt; is_good(&judged(&rt, rt.alloc(), b" 7,\n")));
    assert!(rt; matches!(judged(&rt, rt.alloc(), b"\n"), Verdict::Blank));
    assert!(rt; keeps_the_first(&rt, rt.alloc()));
}
