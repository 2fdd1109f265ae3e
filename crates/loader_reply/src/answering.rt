// How what files come to is answered.
ghost use Rattle.load_options.specs.Accepted.{IsAccepted};
ghost use Rattle.std.specs.Prelude.{◌≡◌, ◌≤◌, ◌∷◌, [], length, map, All, IfOk};
ghost use Rattle.column_taps.specs.Seen.{IsFresh};
ghost use Rattle.std.specs.Bool.{then_some};
ghost use Rattle.report_text.specs.Printable.{IsPrintableBatch, IsPrintableLoad};
ghost use Rattle.report_text.specs.declared.outcome.Outcome.TheVariants as outcomes;
ghost use Rattle.loader_reply.specs.Fitting.{IsAnswerable, misfit};
ghost use Rattle.loader_reply.specs.declared.batch.Load.TheVariants as loads;
ghost use Rattle.loader_reply.specs.Reply.{loaded_of, opened_reply, sniffed_reply, summary_reply, whole_reply, without_spare, written_reply};
ghost use Rattle.loader_reply.specs.Replying.{IsReplyBy, IsStopReply};
ghost use Rattle.loader_reply.specs.Reply.{IsShort, outcome_reply};

use crate::ending::Ending;
use crate::loader::Loader;
use crate::reply::Reply;
use crate::reply_text::ReplyText;
use crate::showing::tap_lines;
use column_taps::RowTap;
use csv_sniffer::Sniffed;
use csv_source::{Bytes, NoMemory, Source};
use csv_writer::write_table;
use file_list::Batch;
use report_text::{Loaded, Outcome, Stats, all_in, render_batch, render_loaded};
use std::thread::Threads;
use window_load::LoadStop;

/// How a load is answered.
#[derive(Clone, Copy)]
pub enum Answer {
    /// By the report of the only file.
    Loaded,
    /// By the report of the only file, with the lines of the taps in place of its rows.
    Summary,
    /// By what each column holds, as CSV.
    Profile,
    /// By the rows as CSV.
    Written,
    /// By the stored rejects of the only file as CSV.
    Rejects,
    /// By the rows, and the rejects that are stored, as a database.
    Database,
    /// By the rows, and the rejects that are stored, as arrays.
    Arrays,
    /// By the report of several files.
    Batch,
}

impl<'a, R: Threads + Sync, G> Loader<'a, R, G> {
    /// The reply with the report of an outcome that has no rows.
    pub fn report(&self, outcome: Outcome) -> Result<Reply, NoMemory>
        requires { IsShort outcome }
        ensures { IfOk result (λ r. r ≡ outcome_reply outcome) }
    {
        Reply::report(self.alloc, outcome)
    }

    /// The reply where the reading of files within a limit stopped.
    pub fn stopped_reply(&self, limit: u64, stop: LoadStop) -> Result<Reply, NoMemory>
        ensures ok { IfOk result (IsStopReply limit stop) }
    {
        match stop {
            LoadStop::TooLarge => self.report(Outcome::TooLarge(limit)),
            LoadStop::Failed => self.report(Outcome::ReadFault),
            LoadStop::NoMemory => Err(NoMemory),
        }
    }

    /// The only file of a batch as it is reported.
    fn loaded_of(&self, sniffed: Sniffed, batch: Batch, stats: Stats) -> Loaded
        requires one { length batch.files ≡ 1 }
        ensures { without_spare result ≡ loaded_of self.now.options.now sniffed batch stats }
    {
        let (table, file) = batch.into_only();
        Loaded {
            sniffed,
            table,
            book: file.book,
            file: file.name,
            store: self.options.store_rejects,
            stats: self.options.stats.then_some(stats),
        }
    }

    /// The reply with the report of a loaded file, whose rows are shown to taps.
    fn summary_reply(&self, loaded: Loaded, taps: Vec<Box<dyn RowTap>>) -> Result<Reply, NoMemory>
        requires printable { IsPrintableLoad loaded }
        requires fresh { All IsFresh (map seen taps.items) }
        ensures ok { IfOk result (λ r. r ≡ summary_reply loaded (map seen taps.items)) }
    {
        match tap_lines(self.alloc, &loaded.table, taps) {
            Ok(lines) => self.report(Outcome::Summary(loaded, Bytes::from_vec(lines))),
            Err(NoMemory) => {
                // As one value, as in `Ending::of`.
                drop(loaded);
                Err(NoMemory)
            }
        }
    }

    /// The reply with the report of a loaded file, rows and all.
    fn loaded_report(&self, loaded: Loaded) -> Result<Reply, NoMemory>
        requires { IsPrintableLoad loaded }
        ensures { IfOk result (λ r. r ≡ outcome_reply (outcomes.Loaded loaded)) }
    {
        let (faults, noticed) = (loaded.book.all(), loaded.sniffed.noticed);
        let text = render_loaded(&self.workers(), loaded)?;
        Ok(Reply::new(
            Ending::Answered(faults, Some(noticed)),
            ReplyText::Report(text),
        ))
    }

    /// The reply with the report of several files, rows and all.
    fn batch_report(&self, sniffed: &Sniffed, batch: Batch, stats: Stats) -> Result<Reply, NoMemory>
        requires { IsPrintableBatch sniffed.now batch }
        ensures { let o = self.now.options.now in
            IfOk result (λ r. r ≡ outcome_reply (outcomes.Batch sniffed.now batch o.store_rejects (then_some o.stats stats))) }
    {
        let faults = all_in(&batch)?;
        let noticed = sniffed.noticed;
        let (store, stats) = (
            self.options.store_rejects,
            self.options.stats.then_some(stats),
        );
        let text = render_batch(&self.workers(), sniffed, batch, store, stats)?;
        Ok(Reply::new(
            Ending::Answered(faults, Some(noticed)),
            ReplyText::Report(text),
        ))
    }

    /// The reply with the rows of files as CSV, under the names that were found.
    fn written_reply(&self, sniffed: &Sniffed, batch: Batch) -> Result<Reply, NoMemory>
        requires printable { IsPrintableBatch sniffed.now batch }
        ensures ok { IfOk result (λ r. r ≡ written_reply sniffed.now batch) }
    {
        let faults = all_in(&batch)?;
        let text = write_table(&self.workers(), &sniffed.names, batch.into_table())?;
        Ok(Reply::new(
            Ending::Answered(faults, Some(sniffed.noticed)),
            ReplyText::Table(text),
        ))
    }

    /// The reply to files that are loaded whole.
    pub fn whole_reply(
        &self,
        answer: Answer,
        sniffed: Sniffed,
        batch: Batch,
        stats: Stats,
        taps: Vec<Box<dyn RowTap>>,
    ) -> Result<Reply, NoMemory>
        requires accepted { IsAccepted self.now.options.now }
        requires fitting { misfit answer sniffed ≡ None }
        requires answerable { IsAnswerable answer sniffed (loads.Whole batch stats) (map seen taps.items) }
        ensures ok { IfOk result (λ r. r ≡ whole_reply answer self.now.options.now sniffed (map seen taps.items) batch stats) }
    {
        match answer {
            Answer::Loaded => self.loaded_report(self.loaded_of(sniffed, batch, stats)),
            Answer::Summary => self.summary_reply(self.loaded_of(sniffed, batch, stats), taps),
            Answer::Batch => {
                let reply = self.batch_report(&sniffed, batch, stats);
                // As one value, as in `Ending::of`.
                drop(sniffed);
                reply
            }
            Answer::Written => {
                let reply = self.written_reply(&sniffed, batch);
                drop(sniffed);
                reply
            }
            Answer::Profile => {
                let reply = self.profile_reply(&sniffed, &batch);
                drop(sniffed);
                drop(batch);
                reply
            }
            Answer::Rejects => {
                let reply = self.rejects_reply(&sniffed, &batch);
                drop(sniffed);
                drop(batch);
                reply
            }
            Answer::Database => {
                let reply = self.database_reply(&sniffed, &batch);
                drop(sniffed);
                drop(batch);
                reply
            }
            Answer::Arrays => {
                let reply = self.arrays_reply(&sniffed, batch);
                drop(sniffed);
                reply
            }
        }
    }

    /// The reply of `sniff` by the file of that name.
    pub fn sniffed_reply<S: Source>(&self, name: &str, source: &mut S) -> Result<Reply, NoMemory>
        requires accepted { IsAccepted self.now.options.now }
        ensures ok { let o = self.now.options.now in
            IfOk result (IsReplyBy o.max_input (opened_reply (sniffed_reply o) o.max_input) (name.now ∷ [])
            (S.held source.old) (S.left source.new) (S.faults source.old) (S.faults source.new)) }
        ensures held { S.held source.new ≡ S.held source.old }
        ensures count { S.faults source.old ≤ S.faults source.new }
    {
        match self.sniff_file(name, source) {
            Ok(outcome) => self.report(outcome),
            Err(stop) => self.stopped_reply(self.options.max_input, stop),
        }
    }
}
