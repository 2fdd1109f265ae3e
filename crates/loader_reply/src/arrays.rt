// What is loaded as arrays.
ghost use Rattle.std.specs.Prelude.{◌≡◌, option_map, IfOk, None};
ghost use Rattle.npz_writer.specs.Members.{arrays};
ghost use Rattle.report_text.specs.Printable.{IsPrintableBatch};
ghost use Rattle.loader_reply.specs.ArrayFiles.{files_if_stored, long_name};
ghost use Rattle.loader_reply.specs.Reply.{arrays_reply};

use crate::ending::Ending;
use crate::loader::Loader;
use crate::reply::Reply;
use crate::reply_text::ReplyText;
use csv_sniffer::Sniffed;
use csv_source::NoMemory;
use file_list::{Batch, FileBook};
use npz_writer::{ArraysText, Findings, KEY_LIMIT, arrays_of, long_key};
use report_text::{Mismatch, all_in};
use std::thread::Threads;

/// How an archive can't have the columns that were found, where the name of one is too long.
pub fn long_name(sniffed: &Sniffed) -> Option<Mismatch>
    ensures { result ≡ long_name sniffed.now }
{
    match long_key(sniffed) {
        Some(column) => Some(Mismatch::LongName(column as u64, KEY_LIMIT as u64)),
        None => None,
    }
}

/// The files whose rejects are written, where rejects are stored.
fn files_if_stored(store: bool, files: &[FileBook]) -> Option<&[FileBook]>
    ensures { option_map (λ stored. stored.now) result ≡ files_if_stored store files.now }
{
    if store { Some(files) } else { None }
}

/// What was found, and the files, where rejects are stored.
fn findings_of<'a>(sniffed: &'a Sniffed, store: bool, files: &'a [FileBook]) -> Findings<'a>
    ensures sniffed { result.sniffed.now ≡ sniffed.now }
    ensures files { option_map (λ stored. stored.now) result.files ≡ files_if_stored store files.now }
{
    let files = files_if_stored(store, files);
    Findings { sniffed, files }
}

impl<'a, R: Threads + Sync, G> Loader<'a, R, G> {
    /// The arrays of files.
    fn arrays_text(&self, sniffed: &Sniffed, batch: Batch) -> Result<ArraysText, NoMemory>
        requires fitting { long_name sniffed.now ≡ None }
        requires printable { IsPrintableBatch sniffed.now batch }
        ensures { IfOk result (λ text. text ≡ arrays sniffed.now batch.rows (files_if_stored self.now.options.now.store_rejects batch.files)) }
    {
        let (table, files) = batch.into_parts();
        let store = self.options.store_rejects;
        let findings = findings_of(sniffed, store, files.as_slice());
        arrays_of(self.rt, self.alloc, &findings, table, self.options.threads)
    }

    /// The reply with the arrays of the files' rows.
    pub fn arrays_reply(&self, sniffed: &Sniffed, batch: Batch) -> Result<Reply, NoMemory>
        requires fitting { long_name sniffed.now ≡ None }
        requires printable { IsPrintableBatch sniffed.now batch }
        ensures ok { IfOk result (λ r. r ≡ arrays_reply self.now.options.now sniffed.now batch) }
    {
        let faults = all_in(&batch)?;
        let text = self.arrays_text(sniffed, batch)?;
        Ok(Reply::new(
            Ending::Answered(faults, Some(sniffed.noticed)),
            ReplyText::Arrays(text),
        ))
    }
}
