// The answer to words: a text of the program's own, or the loader's.
ghost use Rattle.std.specs.Prelude.{◌≡◌, None, Some};
ghost use Rattle.loader_reply.specs.Reply.{texts};
ghost use Rattle.loader_reply.specs.Replying.{ReadsNoFile};
ghost use Rattle.program_answer.specs.OwnText.{IsTold, asks_help, asks_version, help_of, is_help_option, own_text, part_named};
ghost use Rattle.program_answer.specs.declared.answering.OwnText.TheVariants as owns;
ghost use Rattle.program_answer.specs.ProgramTaps.{program_taps};
ghost use Rattle.csv_loader.specs.Headline.{IsRun};

use crate::help::{HELP, OPTIONS, REPORT, VERSION};
use crate::loading::load;
use csv_loader::Ending;
use csv_source::{Gate, NoMemory, Sink, Source, write_all};
use load_options::word_at;
use std::alloc::Global;
use std::sync::Wait;
use std::thread::Threads;

/// A text of the program's own.
#[derive(Clone, Copy)]
pub enum OwnText {
    Help,
    /// The options.
    Options,
    /// What is printed, and the exit statuses.
    Report,
    Version,
}

/// Whether a word asks for help wherever a command, a file or the first option may stand.
fn is_help_option(word: &str) -> bool
    ensures { result ≡ is_help_option word.now }
{
    word == "--help" || word == "-h"
}

/// Whether words ask for help.
fn asks_help(words: &[String]) -> bool
    ensures { result ≡ asks_help (texts words.now) }
{
    let first = word_at(words, 0);
    first == "help"
        || is_help_option(first)
        || is_help_option(word_at(words, 1))
        || is_help_option(word_at(words, 2))
}

/// The part of the help that a word names.
fn part_named(word: &str) -> OwnText
    ensures { result ≡ part_named word.now }
{
    match word {
        "options" => OwnText::Options,
        "report" => OwnText::Report,
        _ => OwnText::Help,
    }
}

/// The part of the help that words ask for.
fn help_of(words: &[String]) -> OwnText
    ensures { result ≡ help_of (texts words.now) }
{
    if word_at(words, 0) == "help" {
        part_named(word_at(words, 1))
    } else {
        OwnText::Help
    }
}

/// Whether words ask for the version.
fn asks_version(words: &[String]) -> bool
    ensures { result ≡ asks_version (texts words.now) }
{
    let first = word_at(words, 0);
    first == "version" || first == "--version" || first == "-V"
}

/// The text of the program's own that words ask for.
pub fn own_text(words: &[String]) -> Option<OwnText>
    ensures { result ≡ own_text (texts words.now) }
{
    if asks_help(words) {
        Some(help_of(words))
    } else if asks_version(words) {
        Some(OwnText::Version)
    } else {
        None
    }
}

/// Writes a text of the program's own.
fn tell<K: Sink>(sink: &mut K, text: &str) -> Ending
    ensures { IsTold text.now (K.faults sink.old) (K.faults sink.new) (K.taken sink.old) (K.taken sink.new) result }
{
    match write_all(sink, text.as_bytes()) {
        Ok(()) => Ending::Answered(0, None),
        Err(_) => Ending::WriteFault,
    }
}

/// Answers words.
#[tactic(auto, using(crate::proofs::NoRun::no_run))]
pub fn answer<R: Threads + Wait + Sync, S: Source + Send, K: Sink, G: Gate>(
    rt: &R,
    alloc: Global,
    words: &[String],
    source: &mut S,
    sink: &mut K,
    gate: &G,
) -> Ending
    // Words that ask for the help, a part of it or the version are told it, whatever stands behind them.
    ensures help { own_text (texts words.now) ≡ Some owns.Help
        → IsTold HELP.now (K.faults sink.old) (K.faults sink.new) (K.taken sink.old) (K.taken sink.new) result }
    ensures options { own_text (texts words.now) ≡ Some owns.Options
        → IsTold OPTIONS.now (K.faults sink.old) (K.faults sink.new) (K.taken sink.old) (K.taken sink.new) result }
    ensures report { own_text (texts words.now) ≡ Some owns.Report
        → IsTold REPORT.now (K.faults sink.old) (K.faults sink.new) (K.taken sink.old) (K.taken sink.new) result }
    ensures version { own_text (texts words.now) ≡ Some owns.Version
        → IsTold VERSION.now (K.faults sink.old) (K.faults sink.new) (K.taken sink.old) (K.taken sink.new) result }

    // All others are the loader's.
    ensures run { own_text (texts words.now) ≡ None → IsRun program_taps (texts words.now)
        (record { held = S.held source.old; left = S.left source.old; faults = S.faults source.old })
        (record { held = S.held source.new; left = S.left source.new; faults = S.faults source.new })
        (record { taken = K.taken sink.old; faults = K.faults sink.old })
        (record { taken = K.taken sink.new; faults = K.faults sink.new }) result }

    // Without a file to read the source stays as it was.
    ensures untouched { ReadsNoFile (texts words.now) → source.new ≡ source.old }
{
    match own_text(words) {
        Some(OwnText::Help) => return tell(sink, HELP),
        Some(OwnText::Options) => return tell(sink, OPTIONS),
        Some(OwnText::Report) => return tell(sink, REPORT),
        Some(OwnText::Version) => return tell(sink, VERSION),
        None => {}
    }
    match load(rt, alloc, words, source, sink, gate) {
        Ok(ending) => ending,
        Err(NoMemory) => Ending::NoMemory,
    }
}
