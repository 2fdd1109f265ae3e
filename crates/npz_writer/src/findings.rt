// What is written as arrays.
use csv_sniffer::Sniffed;
use file_list::FileBook;

/// What was found, and the files whose rejects are written, where rejects are stored.
#[derive(Clone, Copy)]
pub struct Findings<'a> {
    pub sniffed: &'a Sniffed,
    pub files: Option<&'a [FileBook]>,
}
