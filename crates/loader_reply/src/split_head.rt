// The head of a file that is split, which is held whole until its sample is looked at.
ghost use Rattle.std.specs.Prelude.{◌≡◌, ◌⊎◌, ◌≤◌, ◌+◌, [], length, true, false, IfOk, IsFalse, IsTrue, Err};
ghost use Rattle.std.specs.Io.KnownBytes.{Consumes, IsAtEnd};
ghost use Rattle.csv_source.specs.Causes.{Rose};
ghost use Rattle.csv_source.specs.Files.{Lacks};
ghost use Rattle.csv_source.specs.declared.reading.ReadStop.TheVariants as reading;
ghost use Rattle.csv_sniffer.specs.Sample.{sample_limit, start_of_sample};
ghost use Rattle.window_load.specs.declared.stop.LoadStop.TheVariants as stops;
ghost use Rattle.loader_reply.specs.Batch.{IsOpened};
ghost use Rattle.loader_reply.specs.Loading.{GoesBehindSample};
ghost use Rattle.loader_reply.specs.Splitting.{IsSplitHead};

use crate::files::FIRST;
use crate::loader::Loader;
use csv_sniffer::{SAMPLE_LIMIT, sample_start};
use csv_source::{ReadStop, Source};
use file_split::FilePiece;
use window_load::LoadStop;

/// The most bytes of a head, within which the sample has to lie.
pub const HEAD_LIMIT: u64 = 1 << 32;

/// The head of a file, and whether the file's sample lies within it.
#[derive(Drop)]
pub struct SplitHead {
    pub held: FilePiece,
    pub lies: bool,
}

/// Whether some bytes go on behind the sample.
fn goes_behind(bytes: &[u8], skip: u64) -> bool
    ensures ok { IsTrue result → GoesBehindSample skip bytes.now }
    ensures none { IsFalse result → length bytes.now ≤ start_of_sample skip bytes.now + sample_limit }
{
    bytes.len() - sample_start(bytes, skip) > SAMPLE_LIMIT
}

/// Reads on to the end of the sample, which skipped lines may put far behind, and answers whether it lies within a head. What is
/// held is doubled, so that these lines are walked once for each doubling.
fn read_sample<S: Source>(held: &mut FilePiece, source: &mut S, skip: u64) -> Result<bool, ReadStop>
    requires none { held.old.bytes ≡ [] }
    requires going { held.old.ended ≡ false }
    ensures ok { IfOk result (IsSplitHead skip held.new) }
    ensures moved { Consumes (S.left source.old) (S.left source.new) held.new.bytes }
    ensures at_end { held.new.ended ≡ true → IsAtEnd (S.left source.new) }
    ensures held { S.held source.new ≡ S.held source.old }
    ensures count { S.faults source.old ≤ S.faults source.new }
    ensures failed { result ≡ Err reading.Failed → Rose (S.faults source.old) (S.faults source.new) }
{
    while !held.ended {
        if goes_behind(held.bytes.as_slice(), skip) {
            return Ok(true);
        }
        let len = held.bytes.len();
        if len as u64 > HEAD_LIMIT {
            return Ok(false);
        }
        let room = HEAD_LIMIT + 1 - len as u64;
        held.read_on(source, room.min(len.max(FIRST) as u64))?;
    }
    Ok(true)
}

impl<'a, R, G> Loader<'a, R, G> {
    /// Opens a file and reads its head.
    pub fn open_split<S: Source>(&self, name: &str, source: &mut S) -> Result<SplitHead, LoadStop>
        ensures ok { IfOk result (λ head. IsSplitHead self.now.options.now.skip head.held head.lies
            × IsOpened (S.held source.old) name.now (λ opened. Consumes opened (S.left source.new) head.held.bytes)) }
        ensures at_end { IfOk result (λ head. head.held.ended ≡ true → IsAtEnd (S.left source.new)) }
        ensures stop { ¬ (result ≡ Err stops.TooLarge) }
        ensures failed { result ≡ Err stops.Failed → Rose (S.faults source.old) (S.faults source.new) ⊎ Lacks (S.held source.old) name.now }
        ensures held { S.held source.new ≡ S.held source.old }
        ensures count { S.faults source.old ≤ S.faults source.new }
    {
        let Ok(()) = source.open(name) else {
            return Err(LoadStop::Failed);
        };
        let mut held = FilePiece::new(self.alloc);
        match read_sample(&mut held, source, self.options.skip) {
            Ok(lies) => Ok(SplitHead { held, lies }),
            Err(stop) => {
                // As one value, as in `Ending::of`.
                drop(held);
                Err(LoadStop::from(stop))
            }
        }
    }
}
