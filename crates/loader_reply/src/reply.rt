// The reply to words: how the run ends, and a text.
ghost use Rattle.std.specs.Prelude.{◌≡◌, ◌≤◌, IfOk};
ghost use Rattle.loader_reply.specs.Reply.{IsShort, outcome_reply, reply};
ghost use Rattle.report_text.specs.Report.{faults_in, report_of};
ghost use Rattle.loader_reply.specs.Ending.{ending_code};
ghost use Rattle.loader_reply.specs.Replying.{IsEndingOf, IsWritten};
ghost use Rattle.loader_reply.specs.ReplyText.{text_of};

use crate::ending::Ending;
use crate::reply_text::ReplyText;
use csv_source::{Failed, NoMemory, Sink};
use report_text::{Outcome, render};
use std::alloc::Global;
use std::marker::Model;
use std::thread::Threads;
use text_pieces::Pieces;

/// How a run ends, where its text is written whole, and that text.
#[derive(Drop)]
pub struct Reply {
    ending: Ending,
    text: ReplyText,
}

impl Model for Reply {
    ghost use Rattle.loader_reply.specs.Ending.{ending_code};
    ghost use Rattle.loader_reply.specs.Reply.{Reply as ReplyView};
    ghost use Rattle.loader_reply.specs.ReplyText.{text_of};

    ghost Value = { ReplyView };

    ghost view = { λ r. record { status = ending_code r.ending; text = text_of r.text; ending = r.ending } };
}

/// The faults that an outcome without rows tells of, and its report.
fn counted_report(alloc: Global, outcome: &Outcome) -> Result<(u64, Pieces), NoMemory>
    requires { IsShort outcome.now }
    ensures { IfOk result (λ told. (told.0 ≡ faults_in outcome.now) × (told.1 ≡ report_of outcome.now)) }
{
    Ok((outcome.faults()?, render(alloc, outcome)?))
}

impl Reply {
    /// An ending and its text.
    pub(crate) fn new(ending: Ending, text: ReplyText) -> Reply
        ensures { result ≡ reply ending (text_of text) }
    {
        Reply { ending, text }
    }

    /// The report of an outcome that has no rows, with the ending that goes with it.
    pub(crate) fn report(alloc: Global, outcome: Outcome) -> Result<Reply, NoMemory>
        requires { IsShort outcome }
        ensures { IfOk result (λ r. r ≡ outcome_reply outcome) }
    {
        match counted_report(alloc, &outcome) {
            Ok((faults, text)) => Ok(Reply::new(
                Ending::of(outcome, faults),
                ReplyText::Whole(text),
            )),
            Err(NoMemory) => {
                // As one value, as in `Ending::of`.
                drop(outcome);
                Err(NoMemory)
            }
        }
    }

    /// Writes the text, and answers how the run ended: as this reply says, or with a write fault. The sink is told before
    /// whether the text is that of status 0.
    pub fn write<R: Threads + Sync, K: Sink>(self, rt: &R, sink: &mut K) -> Ending
        ensures ending { IsEndingOf self result }
        ensures written { IsWritten self (K.faults sink.old) (K.faults sink.new) (K.taken sink.old) (K.taken sink.new) (ending_code result) }
        ensures count { K.faults sink.old ≤ K.faults sink.new }
    {
        let Reply { ending, text } = self;
        sink.begin(ending.is_answered());
        match text.write(rt, sink) {
            Ok(()) => ending,
            Err(Failed) => {
                drop(ending);
                Ending::WriteFault
            }
        }
    }
}
