// What each column of a loaded table holds.
ghost use Rattle.std.specs.Prelude.{◌≡◌, [], All, IfOk};
ghost use Rattle.csv_writer.specs.Writable.{IsWritableRow};
ghost use Rattle.column_profile.specs.Profile.{profile_of, profile_text};
ghost use Rattle.report_text.specs.Printable.{IsPrintableBatch};
ghost use Rattle.loader_reply.specs.Reply.{profile_reply};

use crate::ending::Ending;
use crate::loader::Loader;
use crate::reply::Reply;
use crate::reply_text::ReplyText;
use column_profile::{Profile, write_profile};
use csv_sniffer::Sniffed;
use csv_source::NoMemory;
use file_list::Batch;
use report_text::all_in;
use std::thread::Threads;
use text_pieces::Pieces;

impl<'a, R: Threads + Sync, G> Loader<'a, R, G> {
    /// A profile with the rows of files taken in.
    fn with_rows(&self, profile: Profile, batch: &Batch) -> Result<Profile, NoMemory>
        requires none { profile ≡ profile_of profile.types [] }
        requires types { batch.now.types ≡ profile.types }
        requires writable { All IsWritableRow batch.now.rows }
        ensures { IfOk result (λ taken. taken ≡ profile_of profile.types batch.now.rows) }
    {
        let mut profile = profile;
        match profile.take_in(self.rt, batch.table(), self.options.threads) {
            Ok(()) => Ok(profile),
            Err(NoMemory) => {
                drop(profile);
                Err(NoMemory)
            }
        }
    }

    /// The text that tells what each column holds.
    fn profile_text(&self, sniffed: &Sniffed, batch: &Batch) -> Result<Pieces, NoMemory>
        requires printable { IsPrintableBatch sniffed.now batch.now }
        ensures { IfOk result (λ text. text ≡ profile_text sniffed.now.names sniffed.now.types batch.now.rows) }
    {
        let profile = self.with_rows(Profile::new(self.alloc, &sniffed.types)?, batch)?;
        write_profile(self.alloc, &profile, &sniffed.names)
    }

    /// The reply with what each column holds.
    pub fn profile_reply(&self, sniffed: &Sniffed, batch: &Batch) -> Result<Reply, NoMemory>
        requires printable { IsPrintableBatch sniffed.now batch.now }
        ensures ok { IfOk result (λ r. r ≡ profile_reply sniffed.now batch.now) }
    {
        let faults = all_in(batch)?;
        let text = self.profile_text(sniffed, batch)?;
        Ok(Reply::new(
            Ending::Answered(faults, Some(sniffed.noticed)),
            ReplyText::Whole(text),
        ))
    }
}
