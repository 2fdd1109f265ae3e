//! The caller's side of the queue while it reads.
ghost use Rattle.std.specs.Prelude.{◌≡◌, ◌+◌, ◌<◌, ◌≤◌, ◌^◌, ◌++◌, ◌∷◌, [], length, IsTrue, IsFalse, OnOk, OnErr};
ghost use Rattle.crossbeam_queue.specs.Passes.{view};
ghost use Rattle.load_options.specs.declared.limits.TheConstants.{THREADS};
ghost use Rattle.window_load.specs.Reads.{stop_in};
ghost use Rattle.pipe_load.specs.Feeding.{BeginsRound, HasFed, IsCallers, IsFeed, IsFed, WaitsForRoom, made_of};
ghost use Rattle.pipe_load.specs.Layout.{round_len};
ghost use Rattle.pipe_load.specs.PassViews.{with_marks};
ghost use Rattle.pipe_load.specs.Reading.{IsRoundRead, ReadsOn};
ghost use Rattle.pipe_load.specs.Rule.{WasFull};

use crate::reader::Reader;
use crate::window::{Item, Window};
use crate::windows::{Pass, Windows};
use csv_source::{NoMemory, Source};
use std::collections::VecDeque;
use std::sync::Wait;
use window_load::LoadStop;

/// What the caller has of the queue: its pass, and the windows for which there was no room.
#[derive(Drop)]
pub struct Feed {
    pub pass: Pass,
    pub waiting: VecDeque<Window>,
}

impl Feed {
    /// Puts the windows that wait, the oldest first, while there is room. Whether none waits any more.
    fn put_waiting<R: Wait>(&mut self, rt: &R, windows: &Windows) -> bool
        requires feed { IsFeed windows.now (view self.old.pass).stages self.old }
        requires few { length (made_of self.old) < 2 ^ 39 }
        ensures feed { IsFeed windows.now (view self.old.pass).stages self.new }
        ensures same { made_of self.new ≡ made_of self.old }
        ensures all { IsTrue result → self.new.waiting.items ≡ [] }
        ensures cause { IsFalse result → WasFull (view self.new.pass) }
    {
        while let Some(window) = self.waiting.pop_front() {
            if let Err(Item::Window(back)) = windows.put(rt, &mut self.pass, Item::Window(window)) {
                self.waiting.push_front_reserved(back);
                return false;
            }
        }
        true
    }

    /// Puts the next window, behind those that wait. Without room for it in the queue it waits.
    fn keep<R: Wait>(&mut self, rt: &R, windows: &Windows, window: Window) -> Result<(), NoMemory>
        requires feed { IsFeed windows.now (view self.old.pass).stages self.old }
        requires few { length (made_of self.old) < 2 ^ 38 }
        requires next { window.number ≡ length (made_of self.old) }
        ensures feed { IsFeed windows.now (view self.old.pass).stages self.new }
        ensures ok { OnOk result (made_of self.new ≡ made_of self.old ++ window ∷ []) }
        ensures err { OnErr result (made_of self.new ≡ made_of self.old) }
        ensures cause { OnOk result (WaitsForRoom self.new) }
    {
        self.waiting.push_back(window)?;
        self.put_waiting(rt, windows);
        Ok(())
    }

    /// Puts the windows of a round, and reads on until the one behind them is in hand. Those for which there is no room wait.
    fn put_round<R: Wait, S: Source>(
        &mut self,
        rt: &R,
        windows: &Windows,
        reader: &mut Reader,
        source: &mut S,
    ) -> Result<(), LoadStop>
        requires begins { BeginsRound windows.now (S.left source.old) reader.old self.old }
        ensures feed { IsFeed windows.now (view self.old.pass).stages self.new }
        ensures few { length (made_of self.new) ≤ round_len reader.old.layout }
        ensures reads { ReadsOn (S.left source.old) (S.left source.new) (S.held source.old) (S.held source.new) (S.faults source.old) (S.faults source.new)
            reader.old reader.new (stop_in result) }
        ensures ok { OnOk result (IsRoundRead (S.left source.old) (S.left source.new) (made_of self.new) reader.old reader.new) }
    {
        let most = reader.layout.round_len();
        while reader.number < most && !reader.is_done() {
            let window = reader.cut()?;
            self.keep(rt, windows, window)?;
            reader.fill(source)?;
        }
        Ok(())
    }

    /// Puts the windows that wait, as room comes. Whether none waits any more: it gives up where there is no room, and no
    /// stage is at work that could make some. That the waiting ends isn't proved.
    fn put_rest<R: Wait>(&mut self, rt: &R, windows: &Windows) -> bool
        requires feed { IsFeed windows.now (view self.old.pass).stages self.old }
        requires few { length (made_of self.old) < 2 ^ 39 }
        ensures feed { IsFeed windows.now (view self.old.pass).stages self.new }
        ensures same { made_of self.new ≡ made_of self.old }
        ensures all { IsTrue result → self.new.waiting.items ≡ [] }
        ensures cause { IsFalse result → WasFull (view self.new.pass) }
    {
        for _ in rt.forever() {
            let heard = windows.signals.heard_by_caller();
            if self.put_waiting(rt, windows) {
                return true;
            }
            if !windows.signals.wait_for_room(rt, heard) {
                return false;
            }
        }
        unreachable!()
    }

    /// Puts an end mark, as room comes. Whether it was put: it gives up as `put_rest` does.
    fn put_mark<R: Wait>(&mut self, rt: &R, windows: &Windows) -> bool
        requires pass { IsCallers windows.now (view self.old.pass).stages self.old.pass }
        requires few { (view self.old.pass).puts < 2 ^ 40 }
        ensures pass { IsCallers windows.now (view self.old.pass).stages self.new.pass }
        ensures waiting { self.new.waiting ≡ self.old.waiting }
        ensures put { IsTrue result → view self.new.pass ≡ with_marks (view self.old.pass) 1 }
        ensures none { IsFalse result → view self.new.pass ≡ view self.old.pass }
        ensures cause { IsFalse result → WasFull (view self.new.pass) }
    {
        for _ in rt.forever() {
            let heard = windows.signals.heard_by_caller();
            if windows.put(rt, &mut self.pass, Item::EndMark).is_ok() {
                return true;
            }
            if !windows.signals.wait_for_room(rt, heard) {
                return false;
            }
        }
        unreachable!()
    }

    /// Puts end marks for so many stages, as room comes. How many were put.
    fn put_marks<R: Wait>(&mut self, rt: &R, windows: &Windows, stages: usize) -> usize
        requires pass { IsCallers windows.now (view self.old.pass).stages self.old.pass }
        requires few { (view self.old.pass).puts + stages < 2 ^ 40 }
        ensures pass { IsCallers windows.now (view self.old.pass).stages self.new.pass }
        ensures waiting { self.new.waiting ≡ self.old.waiting }
        ensures put { view self.new.pass ≡ with_marks (view self.old.pass) result }
        ensures most { result ≤ stages }
        ensures cause { result < stages → WasFull (view self.new.pass) }
    {
        for marks in 0..stages {
            if !self.put_mark(rt, windows) {
                return marks;
            }
        }
        stages
    }

    /// Puts the windows that wait, and behind them end marks for so many stages, as room comes.
    fn put_to_end<R: Wait>(&mut self, rt: &R, windows: &Windows, stages: usize)
        requires feed { IsFeed windows.now (view self.old.pass).stages self.old }
        requires few { length (made_of self.old) < 2 ^ 39 }
        requires stages { stages ≤ THREADS.most }
        ensures pass { IsCallers windows.now (view self.old.pass).stages self.new.pass }
        ensures same { made_of self.new ≡ made_of self.old }
        ensures fed { IsFed stages self.new }
    {
        if !self.put_rest(rt, windows) {
            return;
        }
        self.put_marks(rt, windows, stages);
    }

    /// Puts the windows of a round, and behind them end marks for so many stages. Where it gives up before, what was put is
    /// taken by stages that are told of the end, and what wasn't is left to the caller.
    pub fn put_data<R: Wait, S: Source>(
        &mut self,
        rt: &R,
        windows: &Windows,
        reader: &mut Reader,
        source: &mut S,
        stages: usize,
    ) -> Result<(), LoadStop>
        requires begins { BeginsRound windows.now (S.left source.old) reader.old self.old }
        requires stages { stages ≤ THREADS.most }
        ensures fed { HasFed windows.now (view self.old.pass).stages stages reader.old.layout self.new }
        ensures reads { ReadsOn (S.left source.old) (S.left source.new) (S.held source.old) (S.held source.new) (S.faults source.old) (S.faults source.new)
            reader.old reader.new (stop_in result) }
        ensures ok { OnOk result (IsRoundRead (S.left source.old) (S.left source.new) (made_of self.new) reader.old reader.new) }
    {
        let read = self.put_round(rt, windows, reader, source);
        self.put_to_end(rt, windows, stages);
        windows.signals.tell_end();
        read
    }
}
