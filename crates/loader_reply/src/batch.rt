// What files come to, with one more of them.
ghost use Rattle.std.specs.Prelude.{◌≡◌, [], ◌∷◌, Some, None, IfOk, OnOk, option_map};
ghost use Rattle.load_options.specs.FileNames.{file_names};
ghost use Rattle.loader_reply.specs.Batch.{both_stats, no_files, with_load, with_read, CanJoin, names_behind, names_of};
ghost use Rattle.loader_reply.specs.Loading.{read_stats};
ghost use Rattle.loader_reply.specs.declared.batch.Load.TheVariants as loads;
ghost use Rattle.window_load.specs.declared.data_read.WindowRead.TheVariants as reads;

use csv_sniffer::Sniffed;
use csv_source::{Bytes, NoMemory};
use file_list::Batch;
use range_scan::Joined;
use reject_book::Reject;
use report_text::Stats;
use std::alloc::Global;
use std::mem;
use window_load::{DataRead, WindowRead, sum_of};

/// What files come to.
#[derive(Drop)]
pub enum Load {
    /// The rows and the rejects of all, and what their reading took.
    Whole(Batch, Stats),
    /// The load ends with the first error of all files.
    FirstError(Reject),
    /// A later file, the first one of this name, doesn't begin with the header of the first file, as it has to.
    OtherHeader(Bytes),
}

/// What was found in the first of some files, and what all of them come to under it.
#[derive(Drop)]
pub struct LoadedFiles {
    pub sniffed: Sniffed,
    pub load: Load,
}

/// The stats of files with those of one more. What can't be counted counts as want of memory.
fn stats_with(stats: Stats, read: &DataRead) -> Result<Stats, NoMemory>
    ensures ok { IfOk result (λ sum. sum ≡ both_stats stats (read_stats read.now)) }
{
    let scanned = sum_of(read.length, read.joined.rescanned)?;
    Ok(Stats {
        ranges: sum_of(stats.ranges, read.ranges)?,
        rescans: sum_of(stats.rescans, read.joined.rescans)?,
        scanned: sum_of(stats.scanned, scanned)?,
    })
}

/// Takes all of a file in. After want of memory the files so far are of no use.
fn join_file(
    batch: &mut Batch,
    stats: &mut Stats,
    name: Bytes,
    read: DataRead,
) -> Result<(), NoMemory>
    requires types { batch.old.types ≡ read.joined.table.types }
    ensures ok { OnOk result (loads.Whole batch.new stats.new ≡ with_read batch.old stats.old name read) }
{
    match stats_with(*stats, &read) {
        Ok(sum) => {
            let DataRead { joined, .. } = read;
            let Joined { table, book, .. } = joined;
            *stats = sum;
            batch.join(name, table, book)
        }
        Err(NoMemory) => {
            // As one value, as in `Ending::of`.
            drop(read);
            Err(NoMemory)
        }
    }
}

impl Load {
    /// Takes one more file in, which is none where it begins with another header. That stays; a first error does, unless
    /// that file begins with another header. After want of memory the load is of no use.
    pub fn add(&mut self, name: Bytes, load: Option<WindowRead>) -> Result<(), NoMemory>
        requires types { CanJoin self.old load }
        ensures ok { OnOk result (self.new ≡ with_load self.old name load) }
    {
        match load {
            Some(WindowRead::All(read)) => self.join(name, read),
            Some(WindowRead::Stopped(reject)) => {
                self.stop(reject);
                Ok(())
            }
            None => {
                self.differ(name);
                Ok(())
            }
        }
    }

    /// Takes all of a file in.
    fn join(&mut self, name: Bytes, read: DataRead) -> Result<(), NoMemory>
        requires types { CanJoin self.old (Some (reads.All read)) }
        ensures ok { OnOk result (self.new ≡ with_load self.old name (Some (reads.All read))) }
    {
        match self {
            Load::Whole(batch, stats) => join_file(batch, stats, name, read),
            Load::FirstError(_) | Load::OtherHeader(_) => Ok(()),
        }
    }

    /// Takes a file in that has a first error.
    fn stop(&mut self, reject: Reject)
        ensures { self.new ≡ with_load self.old [] (Some (reads.Stopped reject)) }
    {
        if let Load::Whole(..) = self {
            drop(mem::replace(self, Load::FirstError(reject)));
        }
    }

    /// Takes a file in that begins with another header.
    fn differ(&mut self, name: Bytes)
        ensures { self.new ≡ with_load self.old name None }
    {
        match self {
            Load::OtherHeader(_) => {}
            Load::Whole(..) | Load::FirstError(_) => {
                drop(mem::replace(self, Load::OtherHeader(name)));
            }
        }
    }
}

impl LoadedFiles {
    /// No files.
    fn none(alloc: Global, sniffed: Sniffed) -> Result<LoadedFiles, NoMemory>
        ensures ok { IfOk result (λ files. files ≡ record { sniffed = sniffed; load = no_files sniffed.types }) }
    {
        match Batch::new(alloc, &sniffed.types) {
            Ok(batch) => {
                let stats = Stats {
                    ranges: 0,
                    rescans: 0,
                    scanned: 0,
                };
                let load = Load::Whole(batch, stats);
                Ok(LoadedFiles { sniffed, load })
            }
            Err(NoMemory) => {
                drop(sniffed);
                Err(NoMemory)
            }
        }
    }

    /// The first file, under what was found in it.
    pub fn of_one(
        alloc: Global,
        sniffed: Sniffed,
        name: Bytes,
        load: WindowRead,
    ) -> Result<LoadedFiles, NoMemory>
        requires types { CanJoin (no_files sniffed.types) (Some load) }
        ensures ok { IfOk result (λ files. files ≡ record { sniffed = sniffed; load = with_load (no_files sniffed.types) name (Some load) }) }
    {
        match LoadedFiles::none(alloc, sniffed) {
            Ok(files) => files.with(name, Some(load)),
            Err(NoMemory) => {
                drop(load);
                Err(NoMemory)
            }
        }
    }

    /// These files and one more.
    fn with(self, name: Bytes, load: Option<WindowRead>) -> Result<LoadedFiles, NoMemory>
        requires types { CanJoin self.load load }
        ensures ok { IfOk result (λ files. files ≡ record { sniffed = self.sniffed; load = with_load self.load name load }) }
    {
        let mut files = self;
        match files.load.add(name, load) {
            Ok(()) => Ok(files),
            Err(NoMemory) => {
                drop(files);
                Err(NoMemory)
            }
        }
    }
}

/// The first name of a word, and the text behind its comma, where there is one.
pub fn first_name(word: &str) -> (&str, Option<&str>)
    ensures { file_names word.now ≡ result.0.now ∷ names_behind (option_map (λ text. text.now) result.1) }
{
    match word.split_once(',') {
        Some((name, behind)) => (name, Some(behind)),
        None => (word, None),
    }
}

/// The first name of a word, and the text behind its comma, where there is one and several names are wanted.
pub fn first_of(word: &str, several: bool) -> (&str, Option<&str>)
    ensures { names_of several word.now ≡ result.0.now ∷ names_behind (option_map (λ text. text.now) result.1) }
{
    if several {
        first_name(word)
    } else {
        (word, None)
    }
}
