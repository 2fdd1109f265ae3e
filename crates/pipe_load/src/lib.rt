//! A load in which one thread reads and others scan at the same time, in rounds of so many bytes. The caller cuts a round
//! of the data into windows and puts them into a queue, `Windows`; stages take them, scan each range in its guess and keep
//! the parts. Then the caller joins the round's windows in the order of their numbers, scans again what wasn't opened in its
//! true state (Ge et al., SIGMOD 2019, with the reading beside it), and reads the next round into their memory. A rule that
//! each step on the queue keeps says that no window is lost, changed or taken twice.
//! `pipe_load` has the contract of `window_load`, but that it returns isn't proved.
//! It serves `loader_reply` alone.
#![tactic(auto)]

mod answer;
mod beside;
mod feeding;
mod joining;
mod layout;
mod loading;
mod order;
pub mod pass_view;
mod pipeline;
mod reader;
mod round;
mod rule;
mod scanner;
mod signals;
mod slots;
mod stage;
mod stages;
pub mod window;
mod windows;

pub use loading::pipe_load;
pub use window::{Item, Window};
pub use windows::{CAPACITY, Pass, Windows};
