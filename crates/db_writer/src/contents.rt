// What is written as a database.

use column_store::Table;
use csv_sniffer::Sniffed;
use file_list::FileBook;

/// Rows, in a table of a name under the columns that were found, and the files whose rejects are written: none where rejects
/// aren't stored.
#[derive(Clone, Copy)]
pub struct Contents<'a> {
    pub table: &'a [u8],
    pub sniffed: &'a Sniffed,
    pub rows: &'a Table,
    pub files: &'a [FileBook],
}
