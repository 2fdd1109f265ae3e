// Whether what files come to is as the options want it.
ghost use Rattle.load_options.specs.Accepted.{IsAccepted};
ghost use Rattle.std.specs.Prelude.{◌≡◌, map, IfOk, IfSome, None};
ghost use Rattle.loader_reply.specs.Fitting.{is_arrays, is_database, misfit, mismatch, no_column, passed_bound, refusal, too_many_faults, IsAnswerable};
ghost use Rattle.loader_reply.specs.Reply.{IsShort, load_reply, whole_or_error};

use crate::answering::Answer;
use crate::arrays::long_name;
use crate::batch::{Load, LoadedFiles};
use crate::database::{COLUMN_LIMIT, is_too_wide};
use crate::loader::Loader;
use crate::reply::Reply;
use column_taps::RowTap;
use csv_sniffer::{Sniffed, missing_name};
use csv_source::{Bytes, NoMemory};
use report_text::{Mismatch, Outcome, all_in};
use std::thread::Threads;
use value_types::Names;

/// Whether an answer is a database.
fn is_database(answer: Answer) -> bool
    ensures { result ≡ is_database answer }
{
    match answer {
        Answer::Database => true,
        Answer::Loaded
        | Answer::Summary
        | Answer::Profile
        | Answer::Written
        | Answer::Rejects
        | Answer::Arrays
        | Answer::Batch => false,
    }
}

/// Whether an answer is arrays.
fn is_arrays(answer: Answer) -> bool
    ensures { result ≡ is_arrays answer }
{
    match answer {
        Answer::Arrays => true,
        Answer::Loaded
        | Answer::Summary
        | Answer::Profile
        | Answer::Written
        | Answer::Rejects
        | Answer::Database
        | Answer::Batch => false,
    }
}

/// How what was found doesn't fit the format of an answer, where it doesn't.
fn misfit(answer: Answer, sniffed: &Sniffed) -> Option<Mismatch>
    ensures { result ≡ misfit answer sniffed.now }
{
    if is_database(answer) && is_too_wide(sniffed) {
        return Some(Mismatch::TooManyColumns(COLUMN_LIMIT as u64));
    }
    if is_arrays(answer) {
        return long_name(sniffed);
    }
    None
}

/// The bound on faults, where there are more of them.
fn passed_bound(bound: Option<u64>, faults: u64) -> Option<u64>
    ensures { result ≡ passed_bound bound faults }
{
    match bound {
        Some(bound) if faults > bound => Some(bound),
        _ => None,
    }
}

/// The bound, where files that are loaded whole have more faults.
fn too_many_faults(bound: Option<u64>, load: &Load) -> Result<Option<u64>, NoMemory>
    ensures ok { IfOk result (λ passed. passed ≡ too_many_faults bound load.now) }
{
    match load {
        Load::Whole(batch, _) => Ok(passed_bound(bound, all_in(batch)?)),
        Load::FirstError(_) | Load::OtherHeader(_) => Ok(None),
    }
}

impl<'a, R, G> Loader<'a, R, G> {
    /// How the words don't fit what was found, where the type of a column is given that isn't there.
    pub fn no_column(&self, sniffed: &Sniffed) -> Result<Option<Mismatch>, NoMemory>
        ensures ok { IfOk result (λ mismatch. mismatch ≡ no_column self.now.options.now sniffed.now) }
    {
        let given = &self.options.column_types;
        let Some(name) = missing_name(self.alloc, given, &sniffed.names)? else {
            return Ok(None);
        };
        let names = Names::copy_of(self.alloc, &sniffed.names)?;
        let name = Bytes::copy_of(self.alloc, name)?;
        Ok(Some(Mismatch::NoColumn(name, names)))
    }

    /// How the words don't fit what was found, where they don't.
    fn mismatch(&self, answer: Answer, sniffed: &Sniffed) -> Result<Option<Mismatch>, NoMemory>
        ensures ok { IfOk result (λ found. found ≡ mismatch answer self.now.options.now sniffed.now) }
    {
        if let Some(mismatch) = self.no_column(sniffed)? {
            return Ok(Some(mismatch));
        }
        Ok(misfit(answer, sniffed))
    }

    /// The outcome that comes before an answer to files.
    fn refusal(&self, answer: Answer, files: &LoadedFiles) -> Result<Option<Outcome>, NoMemory>
        ensures ok { IfOk result (λ outcome. outcome ≡ refusal answer self.now.options.now files.now.sniffed files.now.load) }
        ensures short { IfOk result (λ outcome. IfSome outcome IsShort) }
    {
        if let Some(mismatch) = self.mismatch(answer, &files.sniffed)? {
            return Ok(Some(Outcome::Mismatch(mismatch)));
        }
        match too_many_faults(self.options.max_errors, &files.load)? {
            Some(bound) => Ok(Some(Outcome::TooManyFaults(bound))),
            None => Ok(None),
        }
    }
}

impl<'a, R: Threads + Sync, G> Loader<'a, R, G> {
    /// The reply to what files come to.
    pub fn load_reply(
        &self,
        answer: Answer,
        files: LoadedFiles,
        taps: Vec<Box<dyn RowTap>>,
    ) -> Result<Reply, NoMemory>
        requires accepted { IsAccepted self.now.options.now }
        requires answerable { IsAnswerable answer files.sniffed files.load (map seen taps.items) }
        ensures ok { IfOk result (λ r. r ≡ load_reply answer self.now.options.now files.sniffed (map seen taps.items) files.load) }
    {
        match self.refusal(answer, &files) {
            Ok(None) => self.answered(answer, files, taps),
            Ok(Some(outcome)) => {
                // As one value, as in `Ending::of`.
                drop(files);
                self.report(outcome)
            }
            Err(NoMemory) => {
                drop(files);
                Err(NoMemory)
            }
        }
    }

    /// The reply to files before whose answer nothing comes.
    fn answered(
        &self,
        answer: Answer,
        files: LoadedFiles,
        taps: Vec<Box<dyn RowTap>>,
    ) -> Result<Reply, NoMemory>
        requires accepted { IsAccepted self.now.options.now }
        requires fitting { misfit answer files.sniffed ≡ None }
        requires answerable { IsAnswerable answer files.sniffed files.load (map seen taps.items) }
        ensures ok { IfOk result (λ r. r ≡ whole_or_error answer self.now.options.now files.sniffed (map seen taps.items) files.load) }
    {
        let LoadedFiles { sniffed, load } = files;
        match load {
            Load::Whole(batch, stats) => self.whole_reply(answer, sniffed, batch, stats, taps),
            Load::FirstError(reject) => self.report(Outcome::FirstError(sniffed, reject)),
            Load::OtherHeader(file) => {
                let Sniffed { names, .. } = sniffed;
                self.report(Outcome::Mismatch(Mismatch::OtherHeader(file, names)))
            }
        }
    }
}
