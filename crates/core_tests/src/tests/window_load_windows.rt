//! The window of an input by itself.

use super::crew_contexts::repeated;
use csv_source::{MemorySource, Source};
use std::alloc::Global;
use std::process::Abort;
use window_load::InputWindow;

fn holds(window: &InputWindow, bytes: &[u8], base: u64) -> bool {
    window.bytes() == bytes && window.base() == base && !window.ended()
}

/// Whether a window that holds 70,000 bytes drops all but the last three.
fn drops_front(window: &mut InputWindow) -> bool {
    if window.len() != 70_000 {
        return false;
    }
    window.drop_front(69_997);
    holds(window, b"hij", 69_997)
}

/// Whether a window over 100,000 bytes drops what it is told to, and reads past the rest.
fn drops_and_reads_past(rt: &impl Abort, alloc: Global) -> bool {
    let text = repeated(alloc, b"abcdefghij", 10_000).expect(rt, "memory");
    let mut source = MemorySource::new(alloc);
    source.put("f.csv", &text).expect(rt, "memory");
    let mut window = InputWindow::new(alloc, 100_000);
    source.open("f.csv").is_ok()
        && window.fill_to(&mut source, 70_000).is_ok()
        && drops_front(&mut window)
        && !window.ended()
        && window.read_past(&mut source).is_ok()
        && window.ended()
        && window.reach() == 100_000
}

#[test]
fn a_window_drops_and_reads_past(rt: HostRuntime) {
    assert!(rt; drops_and_reads_past(&rt, rt.alloc()));
}
