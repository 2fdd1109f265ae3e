//! Values at the front of longer texts. A clause says what is found, and none that anything is: without it each field goes the
//! long way.
use column_store::Chunk;
use csv_source::NoMemory;
use std::alloc::Global;
use std::process::Abort;
use value_types::ColumnType::{self, Bigint, Boolean, Date, Time, Timestamp, Varchar};
use value_types::{Types, bigint_front};

/// A column's type, bytes, and the place behind the value that they begin with.
struct Front(ColumnType, &'static str, Option<usize>);

const FRONTS: [Front; 34] = [
    Front(Boolean, "true,x", Some(4)),
    Front(Boolean, "TrUe\n1", Some(4)),
    Front(Boolean, "false,and", Some(5)),
    Front(Boolean, "FALSE\n", Some(5)),
    Front(Bigint, "-1,9876543210123456", Some(2)),
    Front(Bigint, "-12,and so on further", Some(3)),
    Front(Bigint, "-1234567,9876543210", Some(8)),
    Front(Bigint, "-12345678,9876543210", Some(9)),
    Front(Bigint, "-123456789\n876543210", Some(10)),
    Front(Bigint, "-123456789012345,7654", Some(16)),
    Front(Bigint, "-0:12:59 and so on", Some(2)),
    Front(Bigint, "007/9876543210123", Some(3)),
    Front(Bigint, "000000000000007a654321", Some(15)),
    Front(Bigint, "999999999999999 543210", Some(15)),
    Front(Bigint, "42 ,9876543210123", Some(2)),
    Front(Bigint, "7,98765432101234", Some(1)),
    Front(Bigint, "123456789012345,", Some(15)),
    Front(Date, "1970-01-02,", Some(10)),
    Front(Date, "1969-12-31\n", Some(10)),
    Front(Date, "2024-02-29,and so on", Some(10)),
    Front(Date, "2023-02-29,and so on", None),
    Front(Time, "00:00:00,and so on..", Some(8)),
    Front(Time, "23:59:59\nand so on..", Some(8)),
    Front(Time, "00:00:01.5,and so on", Some(10)),
    Front(Time, "00:00:01.25,nd so on", Some(11)),
    Front(Time, "00:00:00.000001,d so", Some(15)),
    Front(Time, "00:00:00.12345,d so ", Some(14)),
    Front(Time, "01:00:00:and so on..", Some(8)),
    Front(Timestamp, "1970-01-02 00:00:00,and so on", Some(19)),
    Front(Timestamp, "1970-01-01T00:00:01.5,and so on", Some(21)),
    Front(Timestamp, "1969-12-31 23:59:59.999999,and so on", Some(26)),
    Front(Timestamp, "2024-02-29 23:59:59,and so on", Some(19)),
    Front(Timestamp, "2024-02-29,and so on further on", None),
    Front(Varchar, "text,and so on", None),
];

/// Where the value at the front of a row's bytes ends, in a column of its type.
fn front_end(alloc: Global, row: &Front) -> Result<Option<usize>, NoMemory> {
    let mut types = Types::new(alloc);
    types.push(row.0)?;
    let mut chunk = Chunk::new(alloc, &types)?;
    chunk.push_front(row.1.as_bytes(), 0)
}

fn is_found(rt: &impl Abort, alloc: Global, row: &Front) -> bool {
    front_end(alloc, row).expect(rt, "memory") == row.2
}

#[test]
fn values_at_a_front_are_found(rt: HostRuntime) {
    for row in &FRONTS {
        assert!(rt; is_found(&rt, rt.alloc(), row), "{}", row.1);
    }
}

/// Bytes that are no digits, among them the two beside the digits.
const OTHERS: &[u8] = b",\nx:/-\0\x80\xB0\xB9";

#[test]
fn up_to_fifteen_digits_are_read_up_to_another_byte(rt: HostRuntime) {
    for count in 1..16 {
        for other in OTHERS {
            let mut bytes = *b"123456789012345612345678";
            bytes[count] = *other;
            let end = bigint_front(&bytes, 0).map(|front| front.end);
            assert!(rt; end == Some(count), "{count} before {other}");
        }
    }
}
