//! How the caller and the stages wait for each other, beside the queue. No clause depends on it.

use std::sync::atomic::{AtomicU64, Ordering};
use std::sync::{Condvar, Wait};
use std::thread;
use std::time::Duration;

/// How many looks in a row at an empty queue yield the processor before a stage sleeps. Where the reading is as fast as the
/// scans, the next window comes within them; a slow pipe is waited for asleep.
const YIELDS: u32 = 100;

/// How many milliseconds a sleep takes at most. What one waits for ends the sleep, so this is no delay.
const LONGEST_SLEEP: u64 = 1_000;

/// How many sleeps in a row a stage makes in which nothing is told: an hour. A reading that brings nothing for so long goes
/// on without stages.
const PATIENCE: u32 = 3_600;

/// After how many looks in a row that found nothing a stage ends.
pub const MOST_LOOKS: u32 = YIELDS + PATIENCE;

/// How many milliseconds the caller waits for a first stage to be at work. A thread that was made begins long before.
const BEGINNING: u64 = 100;

/// What the caller and the stages tell each other.
#[derive(Drop)]
pub struct Signals {
    /// Tells stages that an item came, or that no more come.
    came: Condvar,
    /// Tells the caller that an item went, or that a stage ended.
    went: Condvar,
    /// How many stages are at work.
    at_work: AtomicU64,
    /// 1 once the caller puts no more.
    ended: AtomicU64,
}

impl Signals {
    /// Nothing is told, and no stage is at work.
    pub fn new() -> Signals {
        Signals {
            came: Condvar::new(),
            went: Condvar::new(),
            at_work: AtomicU64::new(0),
            ended: AtomicU64::new(0),
        }
    }

    /// An item was put.
    pub fn tell_put(&self) {
        self.came.notify_one();
    }

    /// An item was taken.
    pub fn tell_taken(&self) {
        self.went.notify_one();
    }

    /// The caller puts no more.
    pub fn tell_end(&self) {
        self.ended.store(1, Ordering::SeqCst);
        self.came.notify_all();
    }

    /// A stage is at work.
    pub fn begin(&self) {
        self.at_work.fetch_add(1, Ordering::SeqCst);
    }

    /// A stage is at work no more.
    pub fn leave(&self) {
        self.at_work.fetch_sub(1, Ordering::SeqCst);
        self.went.notify_one();
    }

    /// How often stages were told so far.
    pub fn heard_by_stages(&self) -> u64 {
        self.came.notifications()
    }

    /// How often the caller was told so far.
    pub fn heard_by_caller(&self) -> u64 {
        self.went.notifications()
    }

    /// Whether the caller puts no more.
    pub fn has_ended(&self) -> bool {
        self.ended.load(Ordering::SeqCst) != 0
    }

    /// A stage waits, after so many looks in a row that found nothing, unless it was told more than it had heard before the
    /// last one. How many looks that makes: a sleep in which it was told begins them anew, without the yields.
    pub fn wait_for_item<R: Wait>(&self, rt: &R, heard: u64, looks: u32) -> u32 {
        if looks < YIELDS {
            thread::yield_now();
            return looks + 1;
        }
        self.came
            .sleep(rt, heard, Duration::from_millis(LONGEST_SLEEP));
        if self.came.notifications() != heard {
            return YIELDS;
        }
        looks.saturating_add(1)
    }

    /// The caller waits for room, unless it was told more than it had heard before it looked. Whether another look is of
    /// use: while a stage is at work it will take items, and where none is after a while none could be made.
    pub fn wait_for_room<R: Wait>(&self, rt: &R, heard: u64) -> bool {
        for _ in 0..BEGINNING {
            if self.went.notifications() != heard {
                return true;
            }
            if self.at_work.load(Ordering::SeqCst) != 0 {
                self.went
                    .sleep(rt, heard, Duration::from_millis(LONGEST_SLEEP));
                return true;
            }
            self.went.sleep(rt, heard, Duration::from_millis(1));
        }
        false
    }
}
