// A file of which the head is read, before its sample is looked at, and then its data.
ghost use Rattle.load_options.specs.Accepted.{IsAccepted};
ghost use Rattle.std.specs.Prelude.{◌≡◌, ◌⊎◌, ◌≤◌, ◌<◌, ◌^◌, length, true, false, IfOk, IfSome, IsTrue, IsFalse, Err};
ghost use Rattle.std.specs.Io.KnownBytes.{Consumes, IsAtEnd};
ghost use Rattle.csv_source.specs.Causes.{Rose};
ghost use Rattle.csv_source.specs.Files.{Lacks, Opens};
ghost use Rattle.range_scan.specs.Scanned.{HasColumns};
ghost use Rattle.window_load.specs.DataRead.{ComesOver};
ghost use Rattle.window_load.specs.Window.{no_bytes};
ghost use Rattle.window_load.specs.declared.stop.LoadStop.TheVariants as stops;
ghost use Rattle.loader_reply.specs.Batch.{IsOpened, IsReadWhole, IsReadOver};
ghost use Rattle.loader_reply.specs.Loading.{later_start, IsHead, GoesBehindSample, IsLaterLoad};
ghost use Rattle.loader_reply.specs.Reading.{schema_of};
ghost use Rattle.loader_reply.specs.Reply.{IsShort, sniffed_outcome, told};

use crate::loader::Loader;
use csv_sniffer::{
    Finding, SAMPLE_LIMIT, Sniffed, explain, has_same_header, place_under, sample_start,
    sniff_input,
};
use csv_source::{Gate, NoMemory, Source};
use report_text::Outcome;
use std::alloc::Global;
use std::sync::Wait;
use std::thread::Threads;
use window_load::{InputWindow, LoadStop, WindowRead};

/// The first reading: a sample, a byte order mark, and some skipped lines.
pub const FIRST: usize = SAMPLE_LIMIT + 65_536;

/// Whether a head holds the sample, and tells whether the input ends with it.
fn holds_sample(head: &InputWindow, skip: u64) -> bool
    ensures ok { IsTrue result → (head.now.ended ≡ true) ⊎ GoesBehindSample skip head.now.kept }
    ensures none { IsFalse result → head.now.ended ≡ false }
{
    head.ended() || head.len() - sample_start(head.bytes(), skip) > SAMPLE_LIMIT
}

/// Reads the head of an input. It is doubled until it holds the sample, which skipped lines may put far behind: these
/// are walked once for each doubling.
fn read_head<S: Source>(
    alloc: Global,
    source: &mut S,
    skip: u64,
    most: u64,
) -> Result<InputWindow, LoadStop>
    requires { most ≤ 2 ^ 32 }
    ensures ok { IfOk result (λ head. IsHead skip most head × Consumes (S.left source.old) (S.left source.new) head.kept) }
    ensures at_end { IfOk result (λ head. head.ended ≡ true → IsAtEnd (S.left source.new)) }
    ensures too_large { result ≡ Err stops.TooLarge → ComesOver (S.left source.old) (S.left source.new) (no_bytes most) }
    ensures failed { result ≡ Err stops.Failed → Rose (S.faults source.old) (S.faults source.new) }
    ensures held { S.held source.new ≡ S.held source.old }
    ensures count { S.faults source.old ≤ S.faults source.new }
{
    let mut head = InputWindow::new(alloc, most);
    while !holds_sample(&head, skip) {
        let len = head.len();
        head.fill_to(source, len + len.max(FIRST))?;
    }
    Ok(head)
}

impl<'a, R, G> Loader<'a, R, G> {
    /// Opens a file and reads its head.
    pub fn open_head<S: Source>(&self, name: &str, source: &mut S) -> Result<InputWindow, LoadStop>
        requires accepted { IsAccepted self.now.options.now }
        ensures ok { let o = self.now.options.now in IfOk result (λ head. IsHead o.skip o.max_input head
            × IsOpened (S.held source.old) name.now (λ opened. Consumes opened (S.left source.new) head.kept)) }
        ensures at_end { IfOk result (λ head. head.ended ≡ true → IsAtEnd (S.left source.new)) }
        ensures too_large { result ≡ Err stops.TooLarge → IsReadOver self.now.options.now.max_input (S.held source.old) name.now (S.left source.new) }
        ensures failed { result ≡ Err stops.Failed → Rose (S.faults source.old) (S.faults source.new) ⊎ Lacks (S.held source.old) name.now }
        ensures held { S.held source.new ≡ S.held source.old }
        ensures count { S.faults source.old ≤ S.faults source.new }
    {
        let Ok(()) = source.open(name) else {
            return Err(LoadStop::Failed);
        };
        let options = self.options;
        read_head(self.alloc, source, options.skip, options.max_input)
    }

    /// The place in the head of a later file, from 0, where its data begin; none where it has to begin with the header of the
    /// first one, and doesn't.
    fn later_start(&self, sniffed: &Sniffed, head: &[u8]) -> Result<Option<usize>, NoMemory>
        requires few { length sniffed.now.names < 2 ^ 63 }
        ensures ok { IfOk result (λ start. start ≡ later_start self.now.options.now sniffed.now head.now) }
        ensures within { IfOk result (λ start. IfSome start (λ place. place ≤ length head.now)) }
    {
        let (alloc, options) = (self.alloc, self.options);
        if options.same_header && !has_same_header(alloc, options, sniffed, head)? {
            return Ok(None);
        }
        Ok(Some(place_under(alloc, options, sniffed, head)?))
    }

    /// What `sniff` tells of an input.
    fn sniffed_outcome(&self, input: &[u8]) -> Result<Outcome, NoMemory>
        requires accepted { IsAccepted self.now.options.now }
        ensures ok { IfOk result (λ outcome. outcome ≡ sniffed_outcome self.now.options.now input.now) }
        ensures short { IfOk result IsShort }
    {
        let Finding { sniffed, .. } = sniff_input(self.alloc, self.options, input)?;
        match self.no_column(&sniffed) {
            Ok(None) => self.told(sniffed, input),
            Ok(Some(mismatch)) => {
                // As one value, as in `Ending::of`.
                drop(sniffed);
                Ok(Outcome::Mismatch(mismatch))
            }
            Err(NoMemory) => {
                drop(sniffed);
                Err(NoMemory)
            }
        }
    }

    /// What was found in an input, and why where that is asked for.
    fn told(&self, sniffed: Sniffed, input: &[u8]) -> Result<Outcome, NoMemory>
        requires columns { length sniffed.names ≡ length sniffed.types }
        requires accepted { IsAccepted self.now.options.now }
        ensures ok { IfOk result (λ outcome. outcome ≡ told self.now.options.now sniffed input.now) }
        ensures short { IfOk result IsShort }
    {
        if !self.options.explain {
            return Ok(Outcome::Sniffed(sniffed));
        }
        match explain(self.alloc, self.options, input, &sniffed) {
            Ok(explanation) => Ok(Outcome::Explained(sniffed, explanation)),
            Err(NoMemory) => {
                drop(sniffed);
                Err(NoMemory)
            }
        }
    }

    /// What `sniff` tells of a file. What stands behind its head is read and dropped.
    pub fn sniff_file<S: Source>(&self, name: &str, source: &mut S) -> Result<Outcome, LoadStop>
        requires accepted { IsAccepted self.now.options.now }
        ensures ok { let o = self.now.options.now in
            IfOk result (λ outcome. IsReadWhole o.max_input (S.held source.old) name.now (S.left source.new) (λ input. outcome ≡ sniffed_outcome o input)) }
        ensures short { IfOk result IsShort }
        ensures too_large { result ≡ Err stops.TooLarge → IsReadOver self.now.options.now.max_input (S.held source.old) name.now (S.left source.new) }
        ensures failed { result ≡ Err stops.Failed → Rose (S.faults source.old) (S.faults source.new) ⊎ Lacks (S.held source.old) name.now }
        ensures held { S.held source.new ≡ S.held source.old }
        ensures count { S.faults source.old ≤ S.faults source.new }
    {
        let mut head = self.open_head(name, source)?;
        let outcome = self.sniffed_outcome(head.bytes())?;
        let past = head.read_past(source);
        // As one value, as in `Ending::of`.
        drop(head);
        match past {
            Ok(()) => Ok(outcome),
            Err(stop) => {
                drop(outcome);
                Err(stop)
            }
        }
    }
}

impl<'a, R: Threads + Wait + Sync, G: Gate> Loader<'a, R, G> {
    /// Loads a later file of a number: its data under what was found in the first one; none where it has to begin with the
    /// header of that one, and doesn't.
    pub fn load_later<S: Source + Send>(
        &self,
        sniffed: &Sniffed,
        file_id: u64,
        name: &str,
        source: &mut S,
    ) -> Result<Option<WindowRead>, LoadStop>
        requires accepted { IsAccepted self.now.options.now }
        requires columns { HasColumns (schema_of self.now.options.now sniffed.now) }
        requires few { length sniffed.now.names < 2 ^ 63 }
        ensures ok { let o = self.now.options.now in
            IfOk result (λ load. IsReadWhole o.max_input (S.held source.old) name.now (S.left source.new)
            (λ input. IsLaterLoad o sniffed.now file_id input load)) }
        ensures too_large { result ≡ Err stops.TooLarge → IsReadOver self.now.options.now.max_input (S.held source.old) name.now (S.left source.new) }
        ensures failed { result ≡ Err stops.Failed → Rose (S.faults source.old) (S.faults source.new) ⊎ Lacks (S.held source.old) name.now }
        ensures held { S.held source.new ≡ S.held source.old }
        ensures count { S.faults source.old ≤ S.faults source.new }
    {
        let mut head = self.open_head(name, source)?;
        let begins = self.later_start(sniffed, head.bytes())?;
        match begins {
            Some(start) => Ok(Some(self.load_data(sniffed, file_id, head, start, source)?)),
            None => {
                head.read_past(source)?;
                Ok(None)
            }
        }
    }
}
