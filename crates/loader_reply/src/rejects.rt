// The rejects of a load as CSV.
ghost use Rattle.std.specs.Prelude.{◌≡◌, length, IfOk};
ghost use Rattle.loader_reply.specs.Reply.{rejects_reply};

use crate::ending::Ending;
use crate::loader::Loader;
use crate::reply::Reply;
use crate::reply_text::ReplyText;
use csv_sniffer::Sniffed;
use csv_source::NoMemory;
use csv_writer::write_rejects;
use file_list::Batch;
use report_text::all_in;

impl<'a, R, G> Loader<'a, R, G> {
    /// The reply with the stored rejects of the only file.
    pub fn rejects_reply(&self, sniffed: &Sniffed, batch: &Batch) -> Result<Reply, NoMemory>
        requires one { length batch.now.files ≡ 1 }
        ensures ok { IfOk result (λ r. r ≡ rejects_reply self.now.options.now sniffed.now batch.now) }
    {
        let faults = all_in(batch)?;
        let text = write_rejects(self.alloc, batch.book(0))?;
        Ok(Reply::new(
            Ending::Answered(faults, Some(sniffed.noticed)),
            ReplyText::Whole(text),
        ))
    }
}
