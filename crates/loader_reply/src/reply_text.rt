// The text of a reply.
ghost use Rattle.std.specs.Prelude.{OnOk};
ghost use Rattle.std.specs.Io.KnownBytes.{Appends};
ghost use Rattle.csv_source.specs.Causes.{HasCause};
ghost use Rattle.csv_source.specs.Moves.{AppendsFront};
ghost use Rattle.loader_reply.specs.ReplyText.{text_of};

use csv_source::{Failed, Sink};
use csv_writer::TableRows;
use npz_writer::ArraysText;
use report_text::ReportRows;
use std::thread::Threads;
use text_pieces::{Pieces, RowedText};

/// The text of a reply: whole, or with rows that are made as they are written.
#[derive(Drop)]
pub enum ReplyText {
    /// All of it.
    Whole(Pieces),
    /// A report with the rows of a table.
    Report(RowedText<ReportRows>),
    /// A table as CSV.
    Table(RowedText<TableRows>),
    /// A table as arrays.
    Arrays(ArraysText),
}

impl ReplyText {
    /// Writes all of the text. No memory is wanting then.
    pub fn write<R: Threads + Sync, K: Sink>(self, rt: &R, sink: &mut K) -> Result<(), Failed>
        ensures ok { OnOk result (Appends (K.taken sink.old) (K.taken sink.new) (text_of self)) }
        // Whatever the answer, the sink has taken a front of the text.
        ensures front { AppendsFront (K.taken sink.old) (K.taken sink.new) (text_of self) }
        ensures cause { HasCause (K.faults sink.old) (K.faults sink.new) result }
    {
        match self {
            ReplyText::Whole(text) => text.write(sink),
            ReplyText::Report(text) => text.write(rt, sink),
            ReplyText::Table(text) => text.write(rt, sink),
            ReplyText::Arrays(text) => text.write(sink),
        }
    }
}
