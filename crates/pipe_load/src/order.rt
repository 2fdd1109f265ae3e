//! All windows of a round, joined in the order of their numbers.
ghost use Rattle.std.specs.Prelude.{◌≡◌, ◌≤◌, ℕ, List, false, All, IfOk, OnOk, length, vec_len};
ghost use Rattle.crossbeam_queue.specs.Passes.{view};
ghost use Rattle.range_scan.specs.declared.context.Context.{Context};
ghost use Rattle.pipe_load.specs.declared.layout.Layout.{Layout};
ghost use Rattle.pipe_load.specs.declared.stage.Stage.{Stage as StageView};
ghost use Rattle.pipe_load.specs.Feeding.{IsCallers, AreNumbered, made_of};
ghost use Rattle.pipe_load.specs.Joining.{AddsWindows};
ghost use Rattle.pipe_load.specs.Scanning.{IsStage, HasScanned};
ghost use Rattle.pipe_load.specs.Slots.{AreSlots, HasPut, HoldsAll, IsAllHeld};

use crate::feeding::Feed;
use crate::pipeline::Pipeline;
use crate::reader::Reader;
use crate::slots::Slots;
use crate::stage::Stage;
use crate::stages::any_short;
use crate::windows::{Pass, Windows};
use csv_source::{Gate, NoMemory};
use range_scan::Joined;
use std::alloc::Global;
use std::sync::Wait;
use std::thread::Threads;

/// The windows that stages kept and those that wait, in hand, and the caller's pass with what the stages took: all passes
/// that were split off it come back. What isn't in hand then is in the queue.
fn take_in_hand(
    alloc: Global,
    windows: &Windows,
    feed: Feed,
    stages: Vec<Stage>,
    count: u64,
) -> Result<(Slots, Pass), NoMemory>
    requires feed { IsCallers windows.now (vec_len stages) feed.pass }
    requires made { length (made_of feed) ≡ count }
    requires numbered { AreNumbered (made_of feed) }
    requires stages { All (IsStage windows.now) stages.items }
    requires all { (context : Context) × (l : Layout) × All (λ stage. stage.short ≡ false → HasScanned context l stage) stages.items }
    ensures pass { IfOk result (λ hand. HasPut windows.now (view feed.pass).put hand.1) }
    ensures same { IfOk result (λ hand. vec_len hand.0.slots ≡ count) }
    ensures slots { (context : Context) (l : Layout) → All (λ stage. stage.short ≡ false → HasScanned context l stage) stages.items
        → IfOk result (λ hand. AreSlots context l (made_of feed) hand.0) }
    ensures stages { IfOk result (λ hand. All (λ (s : StageView). HoldsAll hand.0 (view s.pass).taken) stages.items) }
    ensures waiting { IfOk result (λ hand. HoldsAll hand.0 feed.waiting.items) }
    ensures held { IfOk result (λ hand. IsAllHeld 0 hand.0 (view hand.1)) }
{
    let Feed { mut pass, waiting } = feed;
    let mut slots = Slots::new(alloc, count)?;
    if any_short(stages.as_slice()) {
        return Err(NoMemory);
    }
    slots.place_stages(windows, &mut pass, stages);
    slots.place_waiting(alloc, waiting);
    Ok((slots, pass))
}

impl<'r, 'a, R: Threads + Wait + Sync, G: Gate> Pipeline<'r, 'a, R, G> {
    /// Takes all windows of a round in hand, and joins them in order behind those before it. The reader gets their memory.
    pub fn join_windows(
        &self,
        windows: &Windows,
        feed: Feed,
        stages: Vec<Stage>,
        joined: &mut Joined,
        reader: &mut Reader,
    ) -> Result<(), NoMemory>
        requires feed { IsCallers windows.now (vec_len stages) feed.pass }
        requires made { length (made_of feed) ≡ reader.old.number }
        requires numbered { AreNumbered (made_of feed) }
        requires stages { All (IsStage windows.now) stages.items }
        requires all { All (λ stage. stage.short ≡ false → HasScanned self.now.scanner.ranges.context.now self.now.scanner.layout stage) stages.items }
        requires types { joined.old.table.types ≡ self.now.scanner.ranges.context.now.schema.types }
        requires keep { joined.old.book.keep ≡ self.now.scanner.ranges.context.now.keep }
        ensures ok { OnOk result (AddsWindows self.now.scanner.ranges.context.now self.now.scanner.layout (made_of feed) reader.old.number reader.old.number joined.old joined.new) }
        ensures same { (reader.new.window ≡ reader.old.window) × (reader.new.number ≡ reader.old.number) × (reader.new.layout ≡ reader.old.layout) }
    {
        let alloc = self.scanner.ranges.alloc;
        let (mut slots, mut pass) = take_in_hand(alloc, windows, feed, stages, reader.number)?;
        for number in 0..reader.number {
            let kept = slots.fetch(self.rt, alloc, windows, &mut pass, number);
            let spare = self.scanner.add_window(joined, kept)?;
            reader.spares.push(spare)?;
        }
        Ok(())
    }
}
