//! Words that give the name of a database's table.
ghost use Rattle.std.specs.Prelude.{◌≡◌};
ghost use Rattle.std.specs.Str.{str_eq_ignore_ascii_case};
ghost use Rattle.load_options.specs.TableName.{begins_with, is_reserved, is_table_name};

use crate::limits::TABLE_NAME_LIMIT;

/// Whether a text begins with another, in any ASCII case.
fn begins_with(text: &[u8], front: &[u8]) -> bool
    ensures { result ≡ begins_with text.now front.now }
{
    text.len() >= front.len() && text[..front.len()].eq_ignore_ascii_case(front)
}

/// Whether a table of rejects has that name, or SQLite keeps it to itself.
fn is_reserved(text: &[u8]) -> bool
    ensures { result ≡ is_reserved text.now }
{
    text.eq_ignore_ascii_case(b"reject_scans")
        || text.eq_ignore_ascii_case(b"reject_errors")
        || begins_with(text, b"sqlite_")
}

/// Whether a text may be the name of the rows' table. A NUL byte would end what SQLite reads of it.
pub fn is_table_name(text: &[u8]) -> bool
    ensures { result ≡ is_table_name text.now }
{
    !text.is_empty() && text.len() <= TABLE_NAME_LIMIT && !text.contains(&0) && !is_reserved(text)
}
