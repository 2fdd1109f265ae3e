// What is loaded as a database.
ghost use Rattle.load_options.specs.Accepted.{IsAccepted};
ghost use Rattle.std.specs.Prelude.{◌≡◌, IfOk};
ghost use Rattle.report_text.specs.Printable.{IsPrintableBatch};
ghost use Rattle.loader_reply.specs.Reply.{database_reply};
ghost use Rattle.loader_reply.specs.Databases.{is_too_wide, stored_files};

use crate::ending::Ending;
use crate::loader::Loader;
use crate::reply::Reply;
use crate::reply_text::ReplyText;
use csv_sniffer::Sniffed;
use csv_source::NoMemory;
use db_writer::{Contents, write_database};
use file_list::{Batch, FileBook};
use report_text::all_in;
use std::thread::Threads;

/// The most columns of a table (SQLite, "Implementation Limits For SQLite", section 2).
pub const COLUMN_LIMIT: usize = 2_000;

/// Whether a table can't have the columns that were found.
pub fn is_too_wide(sniffed: &Sniffed) -> bool
    ensures { result ≡ is_too_wide sniffed.now }
{
    sniffed.types.len() > COLUMN_LIMIT
}

/// The files whose rejects are written: none, unless rejects are stored.
fn stored_files(store: bool, files: &[FileBook]) -> &[FileBook]
    ensures { result.now ≡ stored_files store files.now }
{
    if store { files } else { &[] }
}

impl<'a, R: Threads + Sync, G> Loader<'a, R, G> {
    /// The reply with the database of the files, under the options' name for the table of their rows.
    pub fn database_reply(&self, sniffed: &Sniffed, batch: &Batch) -> Result<Reply, NoMemory>
        requires accepted { IsAccepted self.now.options.now }
        requires printable { IsPrintableBatch sniffed.now batch.now }
        ensures ok { IfOk result (λ r. r ≡ database_reply self.now.options.now sniffed.now batch.now) }
    {
        let options = self.options;
        let contents = Contents {
            table: options.table.as_slice(),
            sniffed,
            rows: batch.table(),
            files: stored_files(options.store_rejects, batch.files()),
        };
        let text = write_database(self.rt, self.alloc, &contents, options.threads)?;
        Ok(Reply::new(
            Ending::Answered(all_in(batch)?, Some(sniffed.noticed)),
            ReplyText::Whole(text),
        ))
    }
}
