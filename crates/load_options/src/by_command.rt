//! What a command makes of words that it alone reads, or that it has no need of.
ghost use Rattle.std.specs.Prelude.{◌≡◌, ◌||◌, false, [], None, codes, if◌then◌else◌, map, string_bytes};
ghost use Rattle.load_options.specs.Commands.{is_make, is_profile, is_rejects};
ghost use Rattle.load_options.specs.OptionTable.{options_of};
ghost use Rattle.load_options.specs.Refusal.{option_refusal};
ghost use Rattle.load_options.specs.Request.{number_given, truth_given};

use crate::given::{number_given, truth_or};
use crate::limits::ROWS;
use crate::options::Command;

/// Whether a command stores rejects: as its words say, but the one that lists them always does.
pub(crate) fn stores_rejects(command: Command, words: &[String]) -> bool
    ensures { result ≡ (is_rejects command || truth_given (map string_bytes words.now) (codes "store_rejects") false) }
{
    match command {
        Command::Rejects => true,
        Command::Load
        | Command::Sniff
        | Command::Summary
        | Command::Profile
        | Command::Convert
        | Command::Batch
        | Command::Make
        | Command::Split => truth_or(words, "store_rejects", false),
    }
}

/// Whether a command passes faults over: as its words say, but the one that tells what columns hold always does.
pub(crate) fn ignores_errors(command: Command, words: &[String]) -> bool
    ensures { result ≡ (is_profile command || truth_given (map string_bytes words.now) (codes "ignore_errors") false) }
{
    match command {
        Command::Profile => true,
        Command::Load
        | Command::Sniff
        | Command::Summary
        | Command::Convert
        | Command::Rejects
        | Command::Batch
        | Command::Make
        | Command::Split => truth_or(words, "ignore_errors", false),
    }
}

/// The rows that `make` is to write, and 0 for any other command.
pub(crate) fn make_rows(command: Command, words: &[String]) -> u64
    requires sound { option_refusal (options_of command) [] 2 (map string_bytes words.now) ≡ None }
    ensures { result ≡ (if is_make command then number_given (map string_bytes words.now) (codes "rows") ROWS.default else 0) }
{
    match command {
        Command::Make => number_given(words, "rows", ROWS),
        Command::Load
        | Command::Sniff
        | Command::Summary
        | Command::Profile
        | Command::Convert
        | Command::Rejects
        | Command::Batch
        | Command::Split => 0,
    }
}
