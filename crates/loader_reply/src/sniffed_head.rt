// The head of an input, in whose sample something is found while what comes behind it is read.
ghost use Rattle.std.specs.Prelude.{◌≡◌, ◌+◌, ◌≤◌, true, false, length, IfOk, IsTrue, Err, Ok};
ghost use Rattle.std.specs.Io.KnownBytes.{IsAtEnd};
ghost use Rattle.csv_source.specs.Causes.{Rose};
ghost use Rattle.csv_source.specs.Moves.{MovesFront};
ghost use Rattle.load_options.specs.Accepted.{IsAccepted};
ghost use Rattle.range_scan.specs.Scanned.{HasColumns};
ghost use Rattle.window_load.specs.DataRead.{ComesOver};
ghost use Rattle.window_load.specs.Groups.{group_reach};
ghost use Rattle.window_load.specs.Window.{reach, fill_limit};
ghost use Rattle.window_load.specs.declared.stop.LoadStop.TheVariants as stops;
ghost use Rattle.loader_reply.specs.Loading.{IsHead, IsFinding, IsSniffedHead};
ghost use Rattle.loader_reply.specs.Reading.{schema_of};

use crate::loader::Loader;
use crate::sampling::sniff_bytes;
use csv_sniffer::Finding;
use csv_source::{NoMemory, Source};
use load_options::Options;
use std::alloc::Global;
use std::thread::{Threads, join_mut};
use window_load::{InputWindow, LoadStop, group_reach};

/// What is found in an input, and the head of it, as far as it was read meanwhile.
#[derive(Drop)]
pub struct SniffedHead {
    pub finding: Finding,
    pub head: InputWindow,
}

/// Whether more of the input is read while its sample is looked at: one worker reads little at a time, and the caller of a
/// pipeline reads on beside its stages from the first window.
fn reads_on(options: &Options, head: &InputWindow) -> bool
    ensures { IsTrue result → head.now.ended ≡ false }
{
    options.threads > 1 && !options.pipeline && !head.ended()
}

/// Looks at the sample of a head.
fn sniff_kept(alloc: Global, options: &Options, head: &InputWindow) -> Result<Finding, NoMemory>
    requires within { IsAccepted options.now }
    ensures ok { IfOk result (IsFinding options.now head.now.kept) }
    ensures columns { IfOk result (λ finding. HasColumns (schema_of options.now finding.sniffed)) }
{
    sniff_bytes(alloc, options, head.bytes())
}

/// A head with what was found in it.
fn found_in(head: InputWindow, found: Result<Finding, NoMemory>) -> Result<SniffedHead, NoMemory>
    ensures ok { IfOk result (λ read. (found ≡ Ok read.finding) × (read.head ≡ head)) }
{
    match found {
        Ok(finding) => Ok(SniffedHead { finding, head }),
        Err(NoMemory) => Err(NoMemory),
    }
}

impl<'a, R: Threads + Sync, G> Loader<'a, R, G> {
    /// Looks at the sample of a head, and meanwhile reads on, on a thread beside it, for what the first crew will ask for, and
    /// no further than a step behind the head where it has more.
    fn sniff_beside<S: Source + Send>(
        &self,
        head: &InputWindow,
        next: &mut InputWindow,
        source: &mut S,
    ) -> (Result<Finding, NoMemory>, Result<(), LoadStop>)
        requires accepted { IsAccepted self.now.options.now }
        requires at_end { next.old.ended ≡ true → IsAtEnd (S.left source.old) }
        ensures ok { IfOk result.0 (IsFinding self.now.options.now head.now.kept) }
        ensures columns { IfOk result.0 (λ finding. HasColumns (schema_of self.now.options.now finding.sniffed)) }
        ensures filled { IfOk result.1 (λ _. reach next.new ≤ next.new.most) }
        ensures too_large { result.1 ≡ Err stops.TooLarge → reach next.new ≡ next.new.most + 1 }
        ensures moved { MovesFront (S.left source.old) (S.left source.new) next.old.kept next.new.kept }
        ensures within { let o = self.now.options.now in
            length next.new.kept ≤ fill_limit (group_reach o.range_size o.max_line_size) (length next.old.kept) }
        ensures same { (next.new.base ≡ next.old.base) × (next.new.most ≡ next.old.most) }
        ensures at_end { next.new.ended ≡ true → IsAtEnd (S.left source.new) }
        ensures held { S.held source.new ≡ S.held source.old }
        ensures count { S.faults source.old ≤ S.faults source.new }
        ensures failed { result.1 ≡ Err stops.Failed → Rose (S.faults source.old) (S.faults source.new) }
    {
        let (alloc, options) = (self.alloc, self.options);
        let group = group_reach(options.range_size, options.max_line_size);
        let (filled, found) = join_mut(
            self.rt,
            &mut || { next.fill_to(source, group) },
            &mut ||
                requires { IsAccepted options.now }
            { sniff_kept(alloc, options, head) },
        );
        (found, filled)
    }

    /// Finds what is in the sample of an input whose head was read. With several workers the input is read on meanwhile, into
    /// a copy of the head, as far as the first crew needs it.
    pub fn sniff_head<S: Source + Send>(
        &self,
        head: InputWindow,
        source: &mut S,
    ) -> Result<SniffedHead, LoadStop>
        requires accepted { IsAccepted self.now.options.now }
        requires head { IsHead self.now.options.now.skip self.now.options.now.max_input head }
        requires at_end { head.ended ≡ true → IsAtEnd (S.left source.old) }
        ensures ok { IfOk result (IsSniffedHead self.now.options.now (S.left source.old) (S.left source.new) head) }
        ensures columns { IfOk result (λ read. HasColumns (schema_of self.now.options.now read.finding.sniffed)) }
        ensures at_end { IfOk result (λ read. read.head.ended ≡ true → IsAtEnd (S.left source.new)) }
        ensures too_large { result ≡ Err stops.TooLarge → ComesOver (S.left source.old) (S.left source.new) head }
        ensures failed { result ≡ Err stops.Failed → Rose (S.faults source.old) (S.faults source.new) }
        ensures held { S.held source.new ≡ S.held source.old }
        ensures count { S.faults source.old ≤ S.faults source.new }
    {
        if reads_on(self.options, &head) {
            let read = self.sniff_on(&head, source);
            drop(head);
            return read;
        }
        let found = sniff_kept(self.alloc, self.options, &head);
        Ok(found_in(head, found)?)
    }

    /// Finds what is in the sample of a head, and reads on meanwhile into a copy of it.
    fn sniff_on<S: Source + Send>(
        &self,
        head: &InputWindow,
        source: &mut S,
    ) -> Result<SniffedHead, LoadStop>
        requires accepted { IsAccepted self.now.options.now }
        requires head { IsHead self.now.options.now.skip self.now.options.now.max_input head.now }
        requires going { head.now.ended ≡ false }
        ensures ok { IfOk result (IsSniffedHead self.now.options.now (S.left source.old) (S.left source.new) head.now) }
        ensures columns { IfOk result (λ read. HasColumns (schema_of self.now.options.now read.finding.sniffed)) }
        ensures at_end { IfOk result (λ read. read.head.ended ≡ true → IsAtEnd (S.left source.new)) }
        ensures too_large { result ≡ Err stops.TooLarge → ComesOver (S.left source.old) (S.left source.new) head.now }
        ensures failed { result ≡ Err stops.Failed → Rose (S.faults source.old) (S.faults source.new) }
        ensures held { S.held source.new ≡ S.held source.old }
        ensures count { S.faults source.old ≤ S.faults source.new }
    {
        let mut next = InputWindow::new(self.alloc, self.options.max_input);
        next.copy_rest(head, 0)?;
        let (found, filled) = self.sniff_beside(head, &mut next, source);
        match filled {
            Ok(()) => Ok(found_in(next, found)?),
            Err(stop) => {
                drop(found);
                drop(next);
                Err(stop)
            }
        }
    }
}
