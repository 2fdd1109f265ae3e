// A row as a record.
ghost use Rattle.std.specs.Prelude.{◌≡◌, ◌++◌, ◌<◌, ◌^◌, length, OnOk};
ghost use Rattle.db_records.specs.Record.{header_size, record_of};

use crate::varint::push_varint;
use csv_source::NoMemory;
use text_pieces::Draft;

/// From so many bytes of types on a header isn't counted.
const MOST_TYPES: usize = 1 << 62;

/// How many bytes a header has with so many of types.
#[inline(always)]
fn header_size(types: u64) -> u64
    requires { types < 2 ^ 62 }
    ensures { result ≡ header_size types }
{
    if types < 127 {
        types + 1
    } else if types < 16382 {
        types + 2
    } else {
        types + 3
    }
}

/// Appends the record of these types and values.
#[inline(always)]
pub fn push_record(into: &mut Draft, types: &Draft, body: &Draft) -> Result<(), NoMemory>
    ensures ok { OnOk result (into.new.text ≡ into.old.text ++ record_of types.now.text body.now.text) }
{
    if types.len() >= MOST_TYPES {
        return Err(NoMemory);
    }
    push_varint(into, header_size(types.len() as u64))?;
    into.append_draft(types)?;
    into.append_draft(body)
}
