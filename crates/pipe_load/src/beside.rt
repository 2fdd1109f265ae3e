//! The reading of a round beside the scans of the stages.
ghost use Rattle.std.specs.Prelude.{◌≡◌, ◌≤◌, OnOk, length};
ghost use Rattle.crossbeam_queue.specs.Passes.{view};
ghost use Rattle.load_options.specs.declared.limits.TheConstants.{THREADS};
ghost use Rattle.window_load.specs.Reads.{stop_in};
ghost use Rattle.pipe_load.specs.Feeding.{BeginsRound, HasFed, made_of};
ghost use Rattle.pipe_load.specs.Reading.{IsRoundRead, ReadsOn};
ghost use Rattle.pipe_load.specs.Scanning.{AreStages, HaveWorked};

use crate::feeding::Feed;
use crate::pipeline::Pipeline;
use crate::reader::Reader;
use crate::stage::Stage;
use crate::stages::work_all;
use crate::windows::Windows;
use csv_source::{Gate, Source};
use std::sync::Wait;
use std::thread;
use std::thread::Threads;
use window_load::LoadStop;

impl<'r, 'a, R: Threads + Wait + Sync, G: Gate> Pipeline<'r, 'a, R, G> {
    /// Reads a round of the data and puts its windows, while the stages scan those that are there. The reading is on the caller's own
    /// thread: where none can be made for the stages they come last, and find what was put and the end.
    pub fn read_beside<S: Source + Send>(
        &self,
        windows: &Windows,
        reader: &mut Reader,
        source: &mut S,
        feed: &mut Feed,
        stages: &mut [Stage],
    ) -> Result<(), LoadStop>
        requires begins { BeginsRound windows.now (S.left source.old) reader.old feed.old }
        requires many { length stages.old ≤ THREADS.most }
        requires stages { AreStages windows.now self.now.scanner.ranges.context.now self.now.scanner.layout stages.old }
        ensures stages { HaveWorked windows.now self.now.scanner.ranges.context.now self.now.scanner.layout stages.old stages.new }
        ensures fed { HasFed windows.now (view feed.old.pass).stages (length stages.old) reader.old.layout feed.new }
        ensures reads { ReadsOn (S.left source.old) (S.left source.new) (S.held source.old) (S.held source.new) (S.faults source.old) (S.faults source.new)
            reader.old reader.new (stop_in result) }
        ensures ok { OnOk result (IsRoundRead (S.left source.old) (S.left source.new) (made_of feed.new) reader.old reader.new) }
    {
        let count = stages.len();
        let ((), read) = thread::join_mut(
            self.rt,
            &mut ||
                requires { AreStages windows.now self.now.scanner.ranges.context.now self.now.scanner.layout stages.now }
                ensures { HaveWorked windows.entry.now self.entry.now.scanner.ranges.context.now self.entry.now.scanner.layout stages.entry.now stages.exit.now }
            { work_all(self.rt, windows, &self.scanner, stages) },
            &mut || { feed.put_data(self.rt, windows, reader, source, count) },
        );
        read
    }
}
