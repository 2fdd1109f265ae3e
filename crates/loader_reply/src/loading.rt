// The load of the data.
ghost use Rattle.load_options.specs.Accepted.{IsAccepted};
ghost use Rattle.std.specs.Prelude.{◌≡◌, ◌+◌, ◌≤◌, ◌^◌, true, length, drop, IfOk, Err};
ghost use Rattle.std.specs.Io.KnownBytes.{IsAtEnd};
ghost use Rattle.csv_source.specs.Causes.{Rose};
ghost use Rattle.load_options.specs.declared.limits.TheConstants.{MAX_LINE_SIZE};
ghost use Rattle.range_scan.specs.Scanned.{HasColumns};
ghost use Rattle.reject_book.specs.Kept.{raised};
ghost use Rattle.reject_book.specs.declared.book.Keep.TheVariants.{First as first_of};
ghost use Rattle.window_load.specs.DataRead.{ComesWhole, ComesOver, IsWindowRead};
ghost use Rattle.window_load.specs.declared.stop.LoadStop.TheVariants as stops;
ghost use Rattle.csv_sniffer.specs.Input.{place_under};
ghost use Rattle.loader_reply.specs.Loading.{raised_data, raised_read, stops_at_error, IsFileLoad, IsHead, KeepsAs};
ghost use Rattle.loader_reply.specs.Reading.{schema_of};

use crate::context::context_of;
use crate::loader::Loader;
use byte_classes::count_line_ends;
use csv_sniffer::Sniffed;
use csv_source::{Gate, NoMemory, Source};
use load_options::Options;
use pipe_load::pipe_load;
use range_scan::Context;
use reject_book::{Book, Keep, Reject};
use std::alloc::Global;
use std::mem;
use std::sync::Wait;
use std::thread::Threads;
use window_load::{
    DataLoader, DataRead, InputWindow, LoadStop, WindowRead, append_book, sum_of, window_load,
};

/// Whether the first error ends the load.
fn stops_at_error(options: &Options) -> bool
    ensures { result ≡ stops_at_error options.now }
{
    !(options.ignore_errors || options.store_rejects)
}

/// A reject behind some lines. What can't be counted counts as want of memory.
fn raised(reject: Reject, lines: u64) -> Result<Reject, NoMemory>
    ensures ok { IfOk result (λ r. r ≡ raised lines reject) }
{
    let mut reject = reject;
    reject.line = sum_of(lines, reject.line)?;
    Ok(reject)
}

/// What was read of the data, whose rejects stand behind some lines.
fn raised_data(alloc: Global, keep: Keep, read: DataRead, lines: u64) -> Result<DataRead, NoMemory>
    requires same { read.joined.book.keep ≡ keep }
    ensures ok { IfOk result (λ raised. raised ≡ raised_data keep lines read) }
{
    let mut read = read;
    let book = mem::replace(&mut read.joined.book, Book::new(alloc, keep));
    match append_book(&mut read.joined.book, book, lines) {
        Ok(()) => Ok(read),
        Err(NoMemory) => {
            // As one value, as in `Ending::of`.
            drop(read);
            Err(NoMemory)
        }
    }
}

/// What the data of a file come to by what was read of them, with lines counted from the file's start.
fn raised_read(
    alloc: Global,
    keep: Keep,
    read: WindowRead,
    lines: u64,
) -> Result<WindowRead, NoMemory>
    requires same { KeepsAs keep read }
    ensures ok { IfOk result (λ raised. raised ≡ raised_read keep lines read) }
{
    match read {
        WindowRead::All(read) => Ok(WindowRead::All(raised_data(alloc, keep, read, lines)?)),
        WindowRead::Stopped(reject) => Ok(WindowRead::Stopped(raised(reject, lines)?)),
    }
}

impl<'a, R: Threads + Wait + Sync, G: Gate> Loader<'a, R, G> {
    /// Reads the data in windows, or where `pipeline` says so while stages scan what came of them.
    fn read_data<S: Source + Send>(
        &self,
        context: &Context,
        head: InputWindow,
        start: usize,
        source: &mut S,
    ) -> Result<WindowRead, LoadStop>
        requires accepted { IsAccepted self.now.options.now }
        requires begins { head.base ≡ 0 }
        requires place { start ≤ length head.kept }
        requires room { head.most ≤ 2 ^ 32 }
        requires at_end { head.ended ≡ true → IsAtEnd (S.left source.old) }
        requires line { context.now.schema.max_line_size ≤ MAX_LINE_SIZE.most }
        requires fits { HasColumns context.now.schema }
        requires keep { stops_at_error self.now.options.now ≡ true → context.now.keep ≡ first_of 1 }
        ensures ok { let o = self.now.options.now in IfOk result (λ read. ComesWhole (S.left source.old) (S.left source.new) head
            (λ input. IsWindowRead context.now (drop start input) start o.range_size (stops_at_error o) read)) }
        ensures too_large { result ≡ Err stops.TooLarge → ComesOver (S.left source.old) (S.left source.new) head }
        ensures failed { result ≡ Err stops.Failed → Rose (S.faults source.old) (S.faults source.new) }
        ensures held { S.held source.new ≡ S.held source.old }
        ensures count { S.faults source.old ≤ S.faults source.new }
    {
        let stop = stops_at_error(self.options);
        let loader = DataLoader {
            rt: self.rt,
            alloc: self.alloc,
            context,
            range_size: self.options.range_size,
            stop,
            threads: self.options.threads,
            gate: self.gate,
        };
        if self.options.pipeline {
            return pipe_load(&loader, head, start, source);
        }
        window_load(&loader, head, start, source)
    }

    /// Loads the data of the file of a number, which begin at `start`, under the dialect and the columns that were found in
    /// it or in another file. The number, from 0, stands in its rejects.
    pub fn load_data<S: Source + Send>(
        &self,
        sniffed: &Sniffed,
        file_id: u64,
        head: InputWindow,
        start: usize,
        source: &mut S,
    ) -> Result<WindowRead, LoadStop>
        requires accepted { IsAccepted self.now.options.now }
        requires head { IsHead self.now.options.now.skip self.now.options.now.max_input head }
        requires columns { HasColumns (schema_of self.now.options.now sniffed.now) }
        requires place { start ≡ place_under self.now.options.now sniffed.now head.kept }
        requires within { start ≤ length head.kept }
        requires at_end { head.ended ≡ true → IsAtEnd (S.left source.old) }
        ensures ok { IfOk result (λ read. ComesWhole (S.left source.old) (S.left source.new) head
            (λ input. IsFileLoad self.now.options.now sniffed.now file_id input read)) }
        ensures too_large { result ≡ Err stops.TooLarge → ComesOver (S.left source.old) (S.left source.new) head }
        ensures failed { result ≡ Err stops.Failed → Rose (S.faults source.old) (S.faults source.new) }
        ensures held { S.held source.new ≡ S.held source.old }
        ensures count { S.faults source.old ≤ S.faults source.new }
    {
        let lines = count_line_ends(&head.bytes()[..start], None);
        match context_of(self.alloc, self.options, sniffed, file_id) {
            Ok(context) => {
                let keep = context.keep;
                let came = self.read_data(&context, head, start, source);
                // As one value, as in `Ending::of`.
                drop(context);
                let read = came?;
                Ok(raised_read(self.alloc, keep, read, lines)?)
            }
            Err(NoMemory) => {
                drop(head);
                Err(LoadStop::NoMemory)
            }
        }
    }
}
