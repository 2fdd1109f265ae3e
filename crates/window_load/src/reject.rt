//! The first reject of a book.
ghost use Rattle.std.specs.Prelude.{◌≡◌, ◌<◌, length, slice_get, option_map, Some, IfOk};
ghost use Rattle.reject_book.specs.Kept.{raised};

use csv_source::{Bytes, NoMemory};
use range_scan::sum_of;
use reject_book::{Book, Reject};
use std::alloc::Global;

/// The first reject of a book, behind some lines: the only one that is copied on its way to the report.
pub fn first_reject(alloc: Global, book: &Book, lines: u64) -> Result<Reject, NoMemory>
    requires some { 0 < length book.now.stored }
    ensures ok { IfOk result (λ reject. option_map (raised lines) (slice_get book.now.stored 0) ≡ Some reject) }
{
    let first = book.get(0);
    Ok(Reject {
        scan_id: first.scan_id,
        file_id: first.file_id,
        line: sum_of(lines, first.line)?,
        line_byte_position: first.line_byte_position,
        byte_position: first.byte_position,
        column_idx: first.column_idx,
        column_name: Bytes::copy_of(alloc, first.column_name.as_slice())?,
        error_type: first.error_type,
        csv_line: Bytes::copy_of(alloc, first.csv_line.as_slice())?,
        error_message: Bytes::copy_of(alloc, first.error_message.as_slice())?,
    })
}
