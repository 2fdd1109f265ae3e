// The load of several files, one after another.
ghost use Rattle.load_options.specs.Accepted.{IsAccepted};
ghost use Rattle.std.specs.Prelude.{◌≡◌, ℕ, ◌+◌, ◌<◌, ◌^◌, List, IfOk, ◌⊎◌, ◌≤◌, ◌∷◌, length, Err};
ghost use Rattle.csv_source.specs.Causes.{Rose};
ghost use Rattle.csv_source.specs.Files.{Lacks};
ghost use Rattle.range_scan.specs.Scanned.{HasColumns};
ghost use Rattle.window_load.specs.declared.stop.LoadStop.TheVariants as stops;
ghost use Rattle.loader_reply.specs.Batch.{no_files, AreRead, HasFiles, IsLoadOf, IsOver, IsPrintableFiles, IsReadOver, LacksOne, names_of};
ghost use Rattle.loader_reply.specs.Reading.{schema_of};
ghost use Rattle.loader_reply.specs.SoFar.{IsSoFar, ReadsNext};

use crate::batch::{LoadedFiles, first_name, first_of};
use crate::loader::Loader;
use crate::sniffed_head::SniffedHead;
use csv_sniffer::Finding;
use csv_source::{Bytes, Gate, Source};
use std::sync::Wait;
use std::thread::Threads;
use window_load::{LoadStop, sum_of};

impl<'a, R: Threads + Wait + Sync, G: Gate> Loader<'a, R, G> {
    /// Loads the first file: what is found in it, and what its data come to under it.
    fn load_first<S: Source + Send>(
        &self,
        name: &str,
        source: &mut S,
    ) -> Result<LoadedFiles, LoadStop>
        requires accepted { IsAccepted self.now.options.now }
        ensures ok { IfOk result (λ files.
            ReadsNext self.now.options.now files.sniffed (S.held source.old) name.now 0 (no_files files.sniffed.types) files.load (S.left source.new)) }
        ensures columns { IfOk result (λ files. HasColumns (schema_of self.now.options.now files.sniffed)) }
        ensures few { IfOk result (λ files. length files.sniffed.names < 2 ^ 63) }
        ensures too_large { result ≡ Err stops.TooLarge → IsReadOver self.now.options.now.max_input (S.held source.old) name.now (S.left source.new) }
        ensures failed { result ≡ Err stops.Failed → Rose (S.faults source.old) (S.faults source.new) ⊎ Lacks (S.held source.old) name.now }
        ensures held { S.held source.new ≡ S.held source.old }
        ensures count { S.faults source.old ≤ S.faults source.new }
    {
        let file = Bytes::copy_of(self.alloc, name.as_bytes())?;
        let head = self.open_head(name, source)?;
        let SniffedHead { finding, head } = self.sniff_head(head, source)?;
        let Finding {
            sniffed,
            data_start,
        } = finding;
        match self.load_data(&sniffed, 0, head, data_start, source) {
            Ok(load) => Ok(LoadedFiles::of_one(self.alloc, sniffed, file, load)?),
            Err(stop) => {
                // As one value, as in `Ending::of`.
                drop(sniffed);
                Err(stop)
            }
        }
    }

    /// Loads a later file of a number behind those before it, and answers the next number.
    fn load_next<S: Source + Send>(
        &self,
        files: &mut LoadedFiles,
        number: u64,
        name: &str,
        source: &mut S,
    ) -> Result<u64, LoadStop>
        requires accepted { IsAccepted self.now.options.now }
        requires columns { HasColumns (schema_of self.now.options.now files.old.sniffed) }
        requires few { length files.old.sniffed.names < 2 ^ 63 }
        requires later { 0 < number }
        requires so_far { (all : List (List ℕ)) × (behind : List (List ℕ))
            × IsSoFar self.now.options.now files.old.sniffed (S.held source.old) all (name.now ∷ behind) number files.old.load }
        ensures ok { IfOk result (λ next. (next ≡ number + 1)
            × ReadsNext self.now.options.now files.old.sniffed (S.held source.old) name.now number files.old.load files.new.load (S.left source.new)) }
        ensures sniffed { files.new.sniffed ≡ files.old.sniffed }
        ensures too_large { result ≡ Err stops.TooLarge → IsReadOver self.now.options.now.max_input (S.held source.old) name.now (S.left source.new) }
        ensures failed { result ≡ Err stops.Failed → Rose (S.faults source.old) (S.faults source.new) ⊎ Lacks (S.held source.old) name.now }
        ensures held { S.held source.new ≡ S.held source.old }
        ensures count { S.faults source.old ≤ S.faults source.new }
    {
        let file = Bytes::copy_of(self.alloc, name.as_bytes())?;
        let load = self.load_later(&files.sniffed, number, name, source)?;
        files.load.add(file, load)?;
        Ok(sum_of(number, 1)?)
    }

    /// Loads the file of a name, or the files of several in one word, one after another: what is found in the first one, and
    /// what all of them come to under it. Of each no more is read than one byte over its limit.
    pub fn load_files<S: Source + Send>(
        &self,
        word: &str,
        several: bool,
        source: &mut S,
    ) -> Result<LoadedFiles, LoadStop>
        requires accepted { IsAccepted self.now.options.now }
        ensures ok { let o = self.now.options.now in let names = names_of several word.now in
            IfOk result (λ files. AreRead o.max_input (S.held source.old) names (S.left source.new) (IsLoadOf o names files.sniffed files.load)) }
        ensures printable { IfOk result (λ files. IsPrintableFiles files.sniffed files.load) }
        ensures files { IfOk result (λ files. HasFiles (length (names_of several word.now)) files.load) }
        ensures too_large { let o = self.now.options.now in
            result ≡ Err stops.TooLarge → AreRead o.max_input (S.held source.old) (names_of several word.now) (S.left source.new) (IsOver o.max_input) }
        ensures failed { result ≡ Err stops.Failed → Rose (S.faults source.old) (S.faults source.new)
            ⊎ LacksOne self.now.options.now.max_input (S.held source.old) (names_of several word.now) }
        ensures held { S.held source.new ≡ S.held source.old }
        ensures count { S.faults source.old ≤ S.faults source.new }
    {
        let (name, mut behind) = first_of(word, several);
        let mut files = self.load_first(name, source)?;
        let mut number = 1;
        while let Some(text) = behind {
            let (name, later) = first_name(text);
            match self.load_next(&mut files, number, name, source) {
                Ok(next) => number = next,
                Err(stop) => {
                    drop(files);
                    return Err(stop);
                }
            }
            behind = later;
        }
        Ok(files)
    }
}
