//! The queue of windows by itself.
ghost use Rattle.std.specs.Prelude.{◌≡◌, ◌+◌, ◌<◌, ◌^◌, length, IfOk};
ghost use Rattle.crossbeam_queue.specs.Passes.{view, IsPassOf};
ghost use Rattle.pipe_load.specs.declared.pass_view.Role.TheVariants as roles;

use csv_source::{Buffer, NoMemory};
use pipe_load::{Item, Pass, Window, Windows};
use std::alloc::Global;
use std::process::Abort;
use std::sync::Wait;
use std::test::Fail;

/// The window of this number, with a copy of the bytes.
fn window_of(alloc: Global, number: u64, bytes: &[u8]) -> Result<Window, NoMemory>
    ensures { IfOk result (λ window. window.number ≡ number) }
{
    let mut copy = Buffer::new(alloc);
    copy.replace(bytes)?;
    Ok(Window::of(number, copy))
}

/// Puts a window, where as many as its number were put before.
fn put<R: Wait + Abort>(rt: &R, windows: &Windows, pass: &mut Pass, window: Window)
    requires pass { IsPassOf windows.now.line pass.old }
    requires caller { (view pass.old).role ≡ roles.Caller }
    requires few { window.number < 2 ^ 32 }
    requires before { (length (view pass.old).put ≡ window.number) × ((view pass.old).puts ≡ window.number) }
    ensures pass { IsPassOf windows.now.line pass.new }
    ensures caller { (view pass.new).role ≡ roles.Caller }
    ensures before { (length (view pass.new).put ≡ window.number + 1) × ((view pass.new).puts ≡ window.number + 1) }
{
    assert!(rt; windows.put(rt, pass, Item::Window(window)).is_ok());
}

/// Whether an item is the window of this number and these bytes.
fn is_window(item: Option<Item>, number: u64, bytes: &[u8]) -> bool {
    match item {
        Some(Item::Window(window)) => window.number() == number && window.bytes() == bytes,
        _ => false,
    }
}

/// Whether an item is an end mark.
fn is_mark(item: Option<Item>) -> bool {
    matches!(item, Some(Item::EndMark))
}

#[test]
fn two_passes_take_windows_in_order(rt: HostRuntime) -> Result<(), Fail> {
    let alloc = rt.alloc();
    let (windows, mut pass) = Windows::new(alloc)?;
    put(&rt, &windows, &mut pass, window_of(alloc, 0, b"1,2\n")?);
    put(&rt, &windows, &mut pass, window_of(alloc, 1, b"3")?);
    assert!(rt; windows.put(&rt, &mut pass, Item::EndMark).is_ok());
    let mut stage = windows.split(&mut pass);
    assert!(rt; is_window(windows.take(&rt, &mut stage), 0, b"1,2\n"));
    assert!(rt; is_window(windows.take(&rt, &mut pass), 1, b"3"));
    assert!(rt; is_mark(windows.take(&rt, &mut stage)));
    assert!(rt; windows.take(&rt, &mut stage).is_none());
    windows.join(&mut pass, stage);
    windows.settle(&mut pass);
    Ok(())
}
