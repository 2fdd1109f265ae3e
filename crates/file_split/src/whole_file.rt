// The parts of a whole file.
ghost use Rattle.std.specs.Prelude.{◌≡◌, ◌≤◌, length, true, IfOk, Err};
ghost use Rattle.std.specs.Io.KnownBytes.{IsAtEnd};
ghost use Rattle.csv_source.specs.Causes.{Rose};
ghost use Rattle.csv_source.specs.declared.reading.ReadStop.TheVariants as stops;
ghost use Rattle.part_cuts.specs.Within.{IsCutRule, most_bytes};
ghost use Rattle.file_split.specs.WholeFile.{begun_at, IsCutFile};

use crate::file_piece::FilePiece;
use byte_classes::count_line_ends;
use csv_source::{ReadStop, Source};
use part_cuts::{CutRule, Cuts};
use std::alloc::Global;

impl FilePiece {
    /// No cuts yet of the data that begin at a place of these bytes, the first ones of the file.
    fn begin(&self, alloc: Global, rule: CutRule, start: usize) -> Result<Cuts, ReadStop>
        requires rule { IsCutRule rule }
        requires place { start ≤ length self.now.bytes }
        requires within { length self.now.bytes ≤ most_bytes }
        ensures ok { IfOk result (λ cuts. cuts ≡ begun_at rule start self.now.bytes) }
        ensures stop { ¬ (result ≡ Err stops.Failed) }
    {
        let lines = count_line_ends(&self.bytes.as_slice()[..start], None);
        match Cuts::new(alloc, rule, start as u64, lines) {
            Ok(cuts) => Ok(cuts),
            Err(_) => Err(ReadStop::NoMemory),
        }
    }
}

/// Finds the parts of a file whose data begin at a place of its first bytes, which are held, and reads it to its end. None
/// are found where it has more bytes than it may have.
pub fn cut_file<S: Source>(
    alloc: Global,
    held: FilePiece,
    rule: CutRule,
    start: usize,
    source: &mut S,
) -> Result<Option<Cuts>, ReadStop>
    requires rule { IsCutRule rule }
    requires place { start ≤ length held.bytes }
    requires within { length held.bytes ≤ most_bytes }
    requires at_end { held.ended ≡ true → IsAtEnd (S.left source.old) }
    ensures ok { IfOk result (IsCutFile (S.left source.old) (S.left source.new) held rule start) }
    ensures held { S.held source.new ≡ S.held source.old }
    ensures count { S.faults source.old ≤ S.faults source.new }
    ensures failed { result ≡ Err stops.Failed → Rose (S.faults source.old) (S.faults source.new) }
{
    let mut held = held;
    let mut cuts = held.begin(alloc, rule, start)?;
    held.bytes.drop_front(start);
    match held.pass_all(&mut cuts, source) {
        Ok(true) => Ok(Some(cuts)),
        Ok(false) => {
            drop(cuts);
            Ok(None)
        }
        Err(stop) => {
            drop(cuts);
            Err(stop)
        }
    }
}
