//! A row that is read and split, and what its fields tell.
ghost use Rattle.std.specs.Prelude.{◌≡◌, length};

use super::dialects::commas;
use byte_classes::Dialect;
use csv_source::NoMemory;
use row_fields::{Fields, Flaw, is_doubled, split_row};
use std::alloc::Global;

/// The second of two fields: its offset, whether it is quoted, its value, and the flaw.
#[derive(Drop)]
struct Second(usize, bool, &'static [u8], Option<Flaw>);

fn has_second(fields: &Fields, row: &[u8], wanted: &Second) -> bool
    requires fits { length row.now ≡ fields.now.row_len }
{
    fields.count() == 2
        && fields.at(1) == wanted.0
        && fields.quoted(1) == wanted.1
        && fields.value(row, 1) == wanted.2
        && fields.flaw() == wanted.3
}

/// Whether the first row of a text has a second field, as it is read and split by itself.
fn is_split(
    alloc: Global,
    dialect: &Dialect,
    text: &[u8],
    wanted: &Second,
) -> Result<bool, NoMemory> {
    let mut fields = Fields::new(alloc);
    let end = fields.read_row(dialect, text, 0)?;
    let row = &text[0..end];
    let is_read = has_second(&fields, row, wanted);
    Ok(has_second(&split_row(alloc, dialect, row)?, row, wanted) && is_read)
}

#[test]
fn rows_are_split_into_fields(rt: HostRuntime) {
    let comma = commas(&rt);
    let closed = Second(2, true, b"x,\"y\"\nz", None);
    let text = b"a,\"x,\"\"y\"\"\nz\"\r\nb,c\n";
    assert!(rt; is_split(rt.alloc(), &comma, text, &closed).expect(&rt, "memory"));
    let flaw = Some(Flaw { column: 1, at: 2 });
    let open = Second(2, true, b"\"b\n3,c\n", flaw);
    assert!(rt; is_split(rt.alloc(), &comma, b"2,\"b\n3,c\n", &open).expect(&rt, "memory"));
}

#[test]
fn a_quote_is_doubled_where_another_stands_behind_it(rt: HostRuntime) {
    let text = b"\"a\"\"b\"";
    assert!(rt; is_doubled(b'"', text, 2) && !is_doubled(b'"', text, 3));
    assert!(rt; !is_doubled(b'"', text, 5) && !is_doubled(b'"', text, 6));
}
