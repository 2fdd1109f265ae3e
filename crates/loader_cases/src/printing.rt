//! What is printed of a reply.
use crate::Stopped;
use csv_source::{Failed, OpenGate, Sink, write_all};
use loader_runs::{Reply, Run};
use std::alloc::Global;
use std::sync::Wait;
use std::thread::Threads;

fn holds(text: &[u8], part: &[u8]) -> bool {
    for place in 0..text.len() {
        if text[place..].starts_with(part) {
            return true;
        }
    }
    false
}

/// Prints for each part whether the text has it.
fn print_parts<K: Sink>(sink: &mut K, text: &[u8], parts: &[&str]) -> Result<(), Failed> {
    for part in parts {
        let is_held = holds(text, part.as_bytes());
        write_all(sink, if is_held { b"has   " } else { b"lacks " })?;
        write_all(sink, part.as_bytes())?;
        write_all(sink, b"\n")?;
    }
    Ok(())
}

/// Prints the status, and the text or whether it has some parts.
fn print_reply<K: Sink>(sink: &mut K, reply: &Reply, parts: &[&str]) -> Result<(), Failed> {
    write_all(sink, b"status ")?;
    write_all(sink, &[b'0' + reply.status() % 10, b'\n'])?;
    if parts.is_empty() {
        return write_all(sink, reply.text());
    }
    print_parts(sink, reply.text(), parts)
}

/// Prints what a run comes to.
pub fn print_run<R: Threads + Wait + Sync, K: Sink>(
    rt: &R,
    alloc: Global,
    sink: &mut K,
    run: &Run<'_, '_>,
    parts: &[&str],
) -> Result<(), Stopped> {
    print_reply(sink, &run.reply(rt, alloc, &OpenGate)?, parts)?;
    Ok(())
}
