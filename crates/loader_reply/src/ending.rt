// How a run ended, with what was found out.
ghost use Rattle.std.specs.Prelude.{◌≡◌, ◌≢◌, ◌==◌};
ghost use Rattle.report_text.specs.Report.{faults_in};
ghost use Rattle.report_text.specs.declared.outcome.Outcome.TheVariants as outcomes;
ghost use Rattle.loader_reply.specs.Ending.{ending_code, ending_of, ending_status, status_code};
ghost use Rattle.loader_reply.specs.declared.status.Status.TheVariants as statuses;

use crate::status::Status;
use csv_sniffer::{Noticed, Sniffed};
use load_options::WordFault;
use reject_book::Reject;
use report_text::{Mismatch, Outcome};

/// How a run ended.
#[derive(Drop)]
pub enum Ending {
    /// The whole text that the words ask for was written. So many faults of rows were passed over, stored or not: 0 for `sniff`,
    /// `split` and `make`. Beside it stands what was noticed in the file, of `batch` in the first one; none where no file was
    /// looked at.
    Answered(u64, Option<Noticed>),
    /// The words were refused.
    Refused(WordFault),
    /// The file that was opened last could not be opened or read.
    ReadFault,
    /// The load ended with its first error: what was found in the file, of `batch` in the first one, and the reject, whose
    /// `file_id` is the file's number.
    FirstError(Sniffed, Reject),
    /// The words don't fit what was found in the file, of `batch` in the first one.
    Mismatch(Mismatch),
    /// The text could not be written whole.
    WriteFault,
    /// No memory could be had.
    NoMemory,
    /// The file that was opened last is over this limit, in bytes.
    TooLarge(u64),
    /// The file, or all files of `batch` together, have more faults of rows than this bound.
    TooManyFaults(u64),
}

impl Ending {
    /// The ending that goes with an outcome of so many faults, once its report is written.
    pub(crate) fn of(outcome: Outcome, faults: u64) -> Ending
        requires { faults ≡ faults_in outcome }
        ensures { result ≡ ending_of outcome }
    {
        match outcome {
            Outcome::Mismatch(mismatch) => Ending::Mismatch(mismatch),
            Outcome::FirstError(sniffed, reject) => Ending::FirstError(sniffed, reject),
            other => {
                let ending = Ending::told(&other, faults);
                // As one value: where a scope's end lets it go, the proof goes through the parts of each variant.
                drop(other);
                ending
            }
        }
    }

    /// The ending of an outcome of which no part is kept.
    fn told(outcome: &Outcome, faults: u64) -> Ending
        requires counted { faults ≡ faults_in outcome.now }
        requires fits { (mismatch : _) → outcome.now ≢ outcomes.Mismatch mismatch }
        requires passed { (s : _) (reject : _) → outcome.now ≢ outcomes.FirstError s reject }
        ensures { result ≡ ending_of outcome.now }
    {
        match outcome {
            Outcome::Refused(fault, _) => Ending::Refused(*fault),
            Outcome::ReadFault => Ending::ReadFault,
            Outcome::TooLarge(limit) => Ending::TooLarge(*limit),
            Outcome::TooManyFaults(bound) => Ending::TooManyFaults(*bound),
            Outcome::Sniffed(sniffed)
            | Outcome::Explained(sniffed, _)
            | Outcome::Split(sniffed, ..)
            | Outcome::Batch(sniffed, ..) => Ending::Answered(faults, Some(sniffed.noticed)),
            Outcome::Loaded(loaded) | Outcome::Summary(loaded, _) => {
                Ending::Answered(faults, Some(loaded.sniffed.noticed))
            }
            Outcome::Mismatch(_) | Outcome::FirstError(..) => unreachable!(),
        }
    }

    /// The same with nothing of what was found out.
    pub fn status(&self) -> Status
        ensures { result ≡ ending_status self.now }
    {
        match self {
            Ending::Answered(..) => Status::Answered,
            Ending::Refused(_) => Status::Refused,
            Ending::ReadFault => Status::ReadFault,
            Ending::FirstError(..) => Status::FirstError,
            Ending::Mismatch(_) => Status::Mismatch,
            Ending::WriteFault => Status::WriteFault,
            Ending::NoMemory => Status::NoMemory,
            Ending::TooLarge(_) => Status::TooLarge,
            Ending::TooManyFaults(_) => Status::TooManyFaults,
        }
    }

    /// Whether the exit status is 0.
    pub fn is_answered(&self) -> bool
        ensures { result ≡ (ending_code self.now == status_code statuses.Answered) }
    {
        match self {
            Ending::Answered(..) => true,
            Ending::Refused(_)
            | Ending::ReadFault
            | Ending::FirstError(..)
            | Ending::Mismatch(_)
            | Ending::WriteFault
            | Ending::NoMemory
            | Ending::TooLarge(_)
            | Ending::TooManyFaults(_) => false,
        }
    }

    /// The exit status of the program.
    pub fn code(&self) -> u8
        ensures { result ≡ ending_code self.now }
    {
        self.status().code()
    }
}
