// The fields of a reject.
ghost use Rattle.std.specs.Prelude.{◌≡◌, map};
ghost use Rattle.reject_book.specs.Fields.{field_of, fields_of};

use crate::reject::{Reject, kind_name};

/// A field of a row about rejects, as it stands on the caller's stack.
#[derive(Clone, Copy)]
pub enum RejectField<'a> {
    Number(u64),
    /// A name that this program gives.
    Text(&'a [u8]),
    /// Bytes of the input, or a message that may hold some: they need not be UTF-8.
    Bytes(&'a [u8]),
}

impl Reject {
    /// The fields in the order of the columns of DuckDB's table `reject_errors`.
    pub fn fields(&self) -> [RejectField<'_>; 10]
        ensures value { map field_of result ≡ fields_of self.now }
    {
        [
            RejectField::Number(self.scan_id),
            RejectField::Number(self.file_id),
            RejectField::Number(self.line),
            RejectField::Number(self.line_byte_position),
            RejectField::Number(self.byte_position),
            RejectField::Number(self.column_idx),
            RejectField::Bytes(self.column_name.as_slice()),
            RejectField::Text(kind_name(self.error_type).as_bytes()),
            RejectField::Bytes(self.csv_line.as_slice()),
            RejectField::Bytes(self.error_message.as_slice()),
        ]
    }
}
