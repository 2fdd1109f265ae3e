// What `split` tells of a file.
ghost use Rattle.std.specs.Prelude.{◌≡◌, ◌⊎◌, ◌≤◌, ◌∷◌, [], length, true, IfOk, IfSome, Err};
ghost use Rattle.std.specs.Io.KnownBytes.{IsAtEnd};
ghost use Rattle.csv_source.specs.Causes.{Rose};
ghost use Rattle.csv_source.specs.Files.{Lacks};
ghost use Rattle.load_options.specs.Accepted.{IsAccepted};
ghost use Rattle.load_options.specs.Texts.{word_at};
ghost use Rattle.report_text.specs.declared.outcome.Outcome.TheVariants as outcomes;
ghost use Rattle.loader_reply.specs.FurtherWords.{further_words};
ghost use Rattle.part_cuts.specs.Within.{most_bytes, IsCutRule};
ghost use Rattle.file_split.specs.WholeFile.{cuts_of, ComesAll, ComesMore};
ghost use Rattle.range_scan.specs.Scanned.{HasColumns};
ghost use Rattle.window_load.specs.declared.stop.LoadStop.TheVariants as stops;
ghost use Rattle.loader_reply.specs.Batch.{IsReadWhole, IsReadOver};
ghost use Rattle.loader_reply.specs.Loading.{IsFinding};
ghost use Rattle.loader_reply.specs.Reading.{schema_of};
ghost use Rattle.loader_reply.specs.Reply.{texts, opened_reply, split_reply, IsShort};
ghost use Rattle.loader_reply.specs.Replying.{IsReplyBy};
ghost use Rattle.loader_reply.specs.Splitting.{cut_rule, split_outcome, split_told, unsplit, IsSplitHead};

use crate::further_words::further_words;
use crate::loader::Loader;
use crate::reply::Reply;
use crate::sampling::sniff_bytes;
use crate::split_head::{HEAD_LIMIT, SplitHead};
use csv_sniffer::{Finding, Sniffed};
use csv_source::{NoMemory, Source};
use file_split::{FilePiece, cut_file};
use load_options::limits::{COLUMN_LIMIT, SIZE};
use load_options::word_at;
use part_cuts::{CutRule, Cuts, MOST_BYTES};
use report_text::{Mismatch, Outcome};
use std::thread::Threads;
use window_load::LoadStop;

impl<'a, R, G> Loader<'a, R, G> {
    /// By what a file is cut under what was found in it.
    fn cut_rule(&self, sniffed: &Sniffed) -> CutRule
        requires accepted { IsAccepted self.now.options.now }
        ensures value { result ≡ cut_rule self.now.options.now sniffed.now }
        ensures within { IsCutRule result }
    {
        CutRule {
            dialect: sniffed.dialect,
            size: self.options.size.unwrap_or(SIZE.default),
            columns: sniffed.types.len() as u64,
        }
    }

    /// Reads a file of which the head is held to its end, and finds its parts behind a place of the head.
    fn cut_rest<S: Source>(
        &self,
        sniffed: &Sniffed,
        held: FilePiece,
        start: usize,
        source: &mut S,
    ) -> Result<Cuts, LoadStop>
        requires accepted { IsAccepted self.now.options.now }
        requires place { start ≤ length held.bytes }
        requires within { length held.bytes ≤ most_bytes }
        requires at_end { held.ended ≡ true → IsAtEnd (S.left source.old) }
        ensures ok { IfOk result (λ cuts. ComesAll (S.left source.old) (S.left source.new) held most_bytes
            (λ input. cuts ≡ cuts_of (cut_rule self.now.options.now sniffed.now) start input)) }
        ensures too_large { result ≡ Err stops.TooLarge → ComesMore (S.left source.old) (S.left source.new) held most_bytes }
        ensures failed { result ≡ Err stops.Failed → Rose (S.faults source.old) (S.faults source.new) }
        ensures held { S.held source.new ≡ S.held source.old }
        ensures count { S.faults source.old ≤ S.faults source.new }
    {
        match cut_file(self.alloc, held, self.cut_rule(sniffed), start, source) {
            Ok(Some(cuts)) => Ok(cuts),
            Ok(None) => Err(LoadStop::TooLarge),
            Err(stop) => Err(LoadStop::from(stop)),
        }
    }

    /// What is told in place of parts: that the sample lies too far behind, or how the words don't fit what was found.
    fn unsplit(&self, lies: bool, sniffed: &Sniffed) -> Result<Option<Outcome>, NoMemory>
        ensures ok { IfOk result (λ outcome. outcome ≡ unsplit self.now.options.now lies sniffed.now) }
        ensures short { IfOk result (λ outcome. IfSome outcome IsShort) }
    {
        if !lies {
            return Ok(Some(Outcome::TooLarge(HEAD_LIMIT)));
        }
        if let Some(mismatch) = self.no_column(sniffed)? {
            return Ok(Some(Outcome::Mismatch(mismatch)));
        }
        if sniffed.types.len() > COLUMN_LIMIT {
            let mismatch = Mismatch::TooManyColumns(COLUMN_LIMIT as u64);
            return Ok(Some(Outcome::Mismatch(mismatch)));
        }
        Ok(None)
    }

    /// The parts of a file under what was found in it, with the further words of each.
    fn parts_told(
        &self,
        words: &[String],
        sniffed: Sniffed,
        cuts: Cuts,
    ) -> Result<Outcome, NoMemory>
        ensures ok { IfOk result (λ outcome. outcome ≡ outcomes.Split sniffed (further_words (texts words.now)) cuts) }
    {
        match further_words(self.alloc, words) {
            Ok(further) => Ok(Outcome::Split(sniffed, further, cuts)),
            Err(NoMemory) => {
                // As one value, as in `Ending::of`.
                drop(sniffed);
                drop(cuts);
                Err(NoMemory)
            }
        }
    }

    /// The parts of a file, unless something else is told in their place.
    fn split_told(
        &self,
        words: &[String],
        lies: bool,
        sniffed: Sniffed,
        cuts: Cuts,
    ) -> Result<Outcome, NoMemory>
        requires columns { length sniffed.names ≡ length sniffed.types }
        ensures ok { IfOk result (λ outcome. outcome ≡ split_told self.now.options.now (texts words.now) lies sniffed cuts) }
        ensures short { IfOk result IsShort }
    {
        let before = self.unsplit(lies, &sniffed);
        match before {
            Ok(None) => self.parts_told(words, sniffed, cuts),
            Ok(Some(outcome)) => {
                drop(sniffed);
                drop(cuts);
                Ok(outcome)
            }
            Err(NoMemory) => {
                drop(sniffed);
                drop(cuts);
                Err(NoMemory)
            }
        }
    }

    /// What `split` tells of a file by what was found in its head.
    fn split_found<S: Source>(
        &self,
        words: &[String],
        head: SplitHead,
        finding: Finding,
        source: &mut S,
    ) -> Result<Outcome, LoadStop>
        requires accepted { IsAccepted self.now.options.now }
        requires head { IsSplitHead self.now.options.now.skip head.held head.lies }
        requires finding { IsFinding self.now.options.now head.held.bytes finding }
        requires columns { HasColumns (schema_of self.now.options.now finding.sniffed) }
        requires at_end { head.held.ended ≡ true → IsAtEnd (S.left source.old) }
        ensures ok { IfOk result (λ outcome. ComesAll (S.left source.old) (S.left source.new) head.held most_bytes
            (λ input. outcome ≡ split_outcome self.now.options.now (texts words.now) input)) }
        ensures short { IfOk result IsShort }
        ensures too_large { result ≡ Err stops.TooLarge → ComesMore (S.left source.old) (S.left source.new) head.held most_bytes }
        ensures failed { result ≡ Err stops.Failed → Rose (S.faults source.old) (S.faults source.new) }
        ensures held { S.held source.new ≡ S.held source.old }
        ensures count { S.faults source.old ≤ S.faults source.new }
    {
        let SplitHead { held, lies } = head;
        let Finding {
            sniffed,
            data_start,
        } = finding;
        match self.cut_rest(&sniffed, held, data_start, source) {
            Ok(cuts) => Ok(self.split_told(words, lies, sniffed, cuts)?),
            Err(stop) => {
                drop(sniffed);
                Err(stop)
            }
        }
    }

    /// What `split` tells of the file that words name, which is read to its end.
    fn split_file<S: Source>(&self, words: &[String], source: &mut S) -> Result<Outcome, LoadStop>
        requires accepted { IsAccepted self.now.options.now }
        ensures ok { let o = self.now.options.now in let all = texts words.now in
            IfOk result (λ outcome. IsReadWhole most_bytes (S.held source.old) (word_at all 1) (S.left source.new) (λ input. outcome ≡ split_outcome o all input)) }
        ensures short { IfOk result IsShort }
        ensures too_large { result ≡ Err stops.TooLarge → IsReadOver most_bytes (S.held source.old) (word_at (texts words.now) 1) (S.left source.new) }
        ensures failed { result ≡ Err stops.Failed → Rose (S.faults source.old) (S.faults source.new) ⊎ Lacks (S.held source.old) (word_at (texts words.now) 1) }
        ensures held { S.held source.new ≡ S.held source.old }
        ensures count { S.faults source.old ≤ S.faults source.new }
    {
        let head = self.open_split(word_at(words, 1), source)?;
        match sniff_bytes(self.alloc, self.options, head.held.bytes.as_slice()) {
            Ok(finding) => self.split_found(words, head, finding, source),
            Err(NoMemory) => {
                drop(head);
                Err(LoadStop::NoMemory)
            }
        }
    }
}

impl<'a, R: Threads + Sync, G> Loader<'a, R, G> {
    /// The reply of `split` to words.
    pub fn split_reply<S: Source>(
        &self,
        words: &[String],
        source: &mut S,
    ) -> Result<Reply, NoMemory>
        requires accepted { IsAccepted self.now.options.now }
        ensures ok { let o = self.now.options.now in let all = texts words.now in
            IfOk result (IsReplyBy most_bytes (opened_reply (split_reply o all) most_bytes) (word_at all 1 ∷ [])
            (S.held source.old) (S.left source.new) (S.faults source.old) (S.faults source.new)) }
        ensures held { S.held source.new ≡ S.held source.old }
        ensures count { S.faults source.old ≤ S.faults source.new }
    {
        match self.split_file(words, source) {
            Ok(outcome) => self.report(outcome),
            Err(stop) => self.stopped_reply(MOST_BYTES, stop),
        }
    }
}
