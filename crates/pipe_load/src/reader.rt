//! Windows are cut from what is held of the input and what comes.
ghost use Rattle.std.specs.Prelude.{◌≡◌, ◌≤◌, ◌<◌, ◌+◌, ◌^◌, true, length, take, IfOk, OnOk, OnErr, IsTrue, IsFalse};
ghost use Rattle.std.specs.Io.KnownBytes.{IsAtEnd};
ghost use Rattle.window_load.specs.Reads.{Reads, stop_in};
ghost use Rattle.window_load.specs.Window.{behind_front, IsFilled};
ghost use Rattle.pipe_load.specs.Layout.{IsLayout, want, lead};
ghost use Rattle.pipe_load.specs.Reading.{IsStarted, Fills, IsCut, IsTurned, passed};

use crate::layout::Layout;
use crate::window::Window;
use csv_source::{Buffer, NoMemory, Source};
use std::alloc::Global;
use window_load::{InputWindow, LoadStop};

/// What is in hand of the data behind the windows that were cut, and memory of windows that were joined.
#[derive(Drop)]
pub struct Reader {
    pub alloc: Global,
    /// The bytes from the start of the next window on.
    pub window: InputWindow,
    /// Buffers to be used again.
    pub spares: Vec<Buffer>,
    /// The number of the next window in its round.
    pub number: u64,
    pub layout: Layout,
}

impl Reader {
    /// At the start of the data, which begin with the window.
    pub fn new(alloc: Global, window: InputWindow, layout: Layout) -> Reader
        ensures { IsStarted window layout result }
    {
        Reader {
            alloc,
            window,
            spares: Vec::new(alloc),
            number: 0,
            layout,
        }
    }

    /// Whether no window is left: no range begins in the bytes in hand.
    pub fn is_done(&self) -> bool
        ensures none { IsTrue result → length self.now.window.kept ≤ lead self.now.layout self.now.number }
        ensures some { IsFalse result → lead self.now.layout self.now.number < length self.now.window.kept }
    {
        self.window.len() as u64 <= self.layout.before.saturating_add(self.number).min(1)
    }

    /// Reads on until the next window is in hand, or all that comes.
    pub fn fill<S: Source>(&mut self, source: &mut S) -> Result<(), LoadStop>
        requires layout { IsLayout self.old.layout }
        requires at_end { self.old.window.ended ≡ true → IsAtEnd (S.left source.old) }
        ensures moved { Fills (S.left source.old) (S.left source.new) self.old self.new }
        ensures ok { OnOk result (IsFilled (want self.old.layout self.old.number) self.new.window) }
        ensures reads { Reads (S.left source.old) (S.left source.new) (S.held source.old) (S.held source.new) (S.faults source.old) (S.faults source.new)
            self.old.window self.new.window (stop_in result) }
    {
        let want = self.layout.want(self.number) as usize;
        self.window.fill_to(source, want)
    }

    /// Gives away the bytes of the next window. Those that the one behind it needs stay in hand: they are copied, or where
    /// more are in hand the others are.
    fn give(&mut self) -> Result<Buffer, NoMemory>
        requires layout { IsLayout self.old.layout }
        ensures value { IfOk result (λ bytes. bytes ≡ take (want self.old.layout self.old.number) self.old.window.kept) }
        ensures ok { OnOk result (self.new.window ≡ behind_front (passed self.old) self.old.window) }
        ensures err { OnErr result (self.new.window ≡ self.old.window) }
        ensures same { (self.new.number ≡ self.old.number) × (self.new.layout ≡ self.old.layout) }
    {
        let held = self.window.len();
        let want = self.layout.want(self.number) as usize;
        let passed = held.min(want - self.layout.reach as usize - 1);
        let mut spare = self.spare();
        if held <= want {
            return self.window.go_on_in(spare, passed);
        }
        spare.replace(&self.window.bytes()[..want])?;
        self.window.drop_front(passed);
        Ok(spare)
    }

    /// The next window, from the bytes in hand.
    pub fn cut(&mut self) -> Result<Window, NoMemory>
        requires layout { IsLayout self.old.layout }
        requires numbers { self.old.number < 2 ^ 40 }
        ensures ok { IfOk result (λ window. IsCut self.old self.new window) }
        ensures err { OnErr result (self.new.window ≡ self.old.window) }
        ensures same { self.new.layout ≡ self.old.layout }
    {
        let bytes = self.give()?;
        let window = Window::of(self.number, bytes);
        self.number += 1;
        Ok(window)
    }

    /// A buffer to be used again, or a new one.
    fn spare(&mut self) -> Buffer
        ensures same { (self.new.window ≡ self.old.window) × (self.new.number ≡ self.old.number) × (self.new.layout ≡ self.old.layout) }
    {
        match self.spares.pop() {
            Some(spare) => spare,
            None => Buffer::new(self.alloc),
        }
    }

    /// Before the next round, in which windows are numbered anew.
    pub fn turn(&mut self)
        requires early { self.old.layout.before + self.old.number < 2 ^ 40 }
        ensures { IsTurned self.old self.new }
    {
        self.layout.before += self.number;
        self.number = 0;
    }
}
