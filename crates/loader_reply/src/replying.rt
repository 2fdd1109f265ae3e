// The reply to words.
ghost use Rattle.load_options.specs.Accepted.{IsAccepted};
ghost use Rattle.std.specs.Prelude.{◌≡◌, ◌≤◌, false, true, None, map, All, IfOk};
ghost use Rattle.column_taps.specs.Seen.{IsFresh};
ghost use Rattle.load_options.specs.Commands.{is_make};
ghost use Rattle.load_options.specs.Texts.{word_at};
ghost use Rattle.load_options.specs.declared.limits.TheConstants.{ROW_LIMIT};
ghost use Rattle.report_text.specs.MadeText.{made_text};
ghost use Rattle.report_text.specs.declared.outcome.Outcome.TheVariants as outcomes;
ghost use Rattle.loader_reply.specs.declared.ending.Ending.TheVariants as endings;
ghost use Rattle.loader_reply.specs.declared.status.Status.TheVariants as statuses;
ghost use Rattle.loader_reply.specs.Ending.{status_code};
ghost use Rattle.loader_reply.specs.Replying.{ReadsFile, ReadsNoFile, IsReplyBy, IsReplyTo};
ghost use Rattle.loader_reply.specs.Asking.{asked_by, asked_limit, asked_names, in_format};
ghost use Rattle.loader_reply.specs.Reply.{texts, reply, asked_reply, outcome_reply};

use crate::answering::Answer;
use crate::ending::Ending;
use crate::loader::Loader;
use crate::reply::Reply;
use crate::reply_text::ReplyText;
use column_taps::RowTap;
use csv_source::{Bytes, Gate, NoMemory, Source};
use load_options::{
    Command, Request, WordFault, WordStop, is_npz, is_sqlite, parse_words, word_at,
};
use report_text::{Outcome, make_text};
use std::alloc::Global;
use std::sync::Wait;
use std::thread::Threads;
use text_pieces::Pieces;

/// What a command asks for.
#[derive(Clone, Copy)]
pub enum Asked {
    /// A made text, for which no file is read.
    Made,
    /// What is found in a file.
    Sniffed,
    /// Where a file can be cut.
    Split,
    /// The load of a file, and how it is answered; where it is so, of the several that one word names.
    Loaded(Answer, bool),
}

/// The reply to words that are refused.
fn reply_to_refused(alloc: Global, words: &[String], fault: WordFault) -> Result<Reply, NoMemory>
    ensures ok { IfOk result (λ r. r ≡ outcome_reply (outcomes.Refused fault (word_at (texts words.now) fault.index))) }
{
    let word = Bytes::copy_of(alloc, word_at(words, fault.index).as_bytes())?;
    Reply::report(alloc, Outcome::Refused(fault, word))
}

/// The reply of `make`.
fn made_reply(alloc: Global, request: &Request) -> Result<Reply, NoMemory>
    requires within { request.now.rows ≤ ROW_LIMIT }
    ensures ok { IfOk result (λ r. r ≡ reply (endings.Answered 0 None) (made_text request.now.number request.now.rows)) }
{
    let text = make_text(alloc, request.number, request.rows)?;
    Ok(Reply::new(
        Ending::Answered(0, None),
        ReplyText::Whole(Pieces::of(alloc, text)),
    ))
}

impl<'a, R: Threads + Sync, G> Loader<'a, R, G> {
    /// The answer with a database or arrays in its place, where they are wanted.
    fn in_format(&self, answer: Answer) -> Answer
        ensures { result ≡ in_format self.now.options.now answer }
    {
        if is_sqlite(self.options.to) {
            Answer::Database
        } else if is_npz(self.options.to) {
            Answer::Arrays
        } else {
            answer
        }
    }

    /// What a command asks for.
    fn asked(&self, command: Command) -> Asked
        ensures { result ≡ asked_by self.now.options.now command }
    {
        match command {
            Command::Make => Asked::Made,
            Command::Sniff => Asked::Sniffed,
            Command::Split => Asked::Split,
            Command::Load => Asked::Loaded(Answer::Loaded, false),
            Command::Rejects => Asked::Loaded(Answer::Rejects, false),
            Command::Summary => Asked::Loaded(Answer::Summary, false),
            Command::Profile => Asked::Loaded(Answer::Profile, false),
            Command::Convert => Asked::Loaded(self.in_format(Answer::Written), false),
            Command::Batch => Asked::Loaded(self.in_format(Answer::Batch), true),
        }
    }
}

impl<'a, R: Threads + Wait + Sync, G: Gate> Loader<'a, R, G> {
    /// The reply to a request with these options, which words ask for.
    fn reply_to_request<S: Source + Send>(
        &self,
        request: &Request,
        words: &[String],
        source: &mut S,
        taps: Vec<Box<dyn RowTap>>,
    ) -> Result<Reply, NoMemory>
        requires accepted { IsAccepted self.now.options.now }
        requires same { self.now.options.now ≡ request.now.options }
        requires rows { request.now.rows ≤ ROW_LIMIT }
        requires fresh { All IsFresh (map seen taps.items) }
        ensures ok { let asked = asked_by request.now.options request.now.command in
            IfOk result (IsReplyBy (asked_limit asked request.now.options) (asked_reply asked request.now (texts words.now) (map seen taps.items)) (asked_names asked (word_at (texts words.now) 1))
            (S.held source.old) (S.left source.new) (S.faults source.old) (S.faults source.new)) }
        ensures fault_of_file { IfOk result (λ r. r.status ≡ status_code statuses.ReadFault → is_make request.now.command ≡ false) }
        ensures untouched { is_make request.now.command ≡ true → source.new ≡ source.old }
        ensures held { S.held source.new ≡ S.held source.old }
        ensures count { S.faults source.old ≤ S.faults source.new }
    {
        let word = word_at(words, 1);
        match self.asked(request.command) {
            Asked::Made => made_reply(self.alloc, request),
            Asked::Sniffed => self.sniffed_reply(word, source),
            Asked::Split => self.split_reply(words, source),
            Asked::Loaded(answer, several) => match self.load_files(word, several, source) {
                Ok(files) => self.load_reply(answer, files, taps),
                Err(stop) => self.stopped_reply(self.options.max_input, stop),
            },
        }
    }
}

/// Reads what the words want, and makes the reply.
pub fn reply_to<R: Threads + Wait + Sync, S: Source + Send, G: Gate>(
    rt: &R,
    alloc: Global,
    words: &[String],
    source: &mut S,
    gate: &G,
    taps: Vec<Box<dyn RowTap>>,
) -> Result<Reply, NoMemory>
    requires fresh { All (λ tap. IsFresh (seen tap)) taps.items }
    ensures ok { IfOk result (IsReplyTo (texts words.now) (map seen taps.items)
        (S.held source.old) (S.left source.new) (S.faults source.old) (S.faults source.new)) }
    ensures fault_of_file { IfOk result (λ r. r.status ≡ status_code statuses.ReadFault → ReadsFile (texts words.now)) }
    ensures untouched { ReadsNoFile (texts words.now) → source.new ≡ source.old }
    ensures held { S.held source.new ≡ S.held source.old }
    ensures count { S.faults source.old ≤ S.faults source.new }
{
    match parse_words(alloc, words) {
        Ok(request) => {
            let loader = Loader {
                rt,
                alloc,
                options: &request.options,
                gate,
            };
            let reply = loader.reply_to_request(&request, words, source, taps);
            // As one value, as in `Ending::of`.
            drop(request);
            reply
        }
        Err(WordStop::Fault(fault)) => reply_to_refused(alloc, words, fault),
        Err(WordStop::NoMemory) => Err(NoMemory),
    }
}
