//! Words that give the format in which rows are written.
ghost use Rattle.std.specs.Prelude.{◌≡◌};
ghost use Rattle.load_options.specs.Formats.{format_named, is_binary, is_npz, is_sqlite, writes};

use crate::options::{Command, OutputFormat};

/// The format of that name.
pub fn format_named(text: &[u8]) -> Option<OutputFormat>
    ensures { result ≡ format_named text.now }
{
    if text == b"csv".as_slice() {
        Some(OutputFormat::Csv)
    } else if text == b"sqlite".as_slice() {
        Some(OutputFormat::Sqlite)
    } else if text == b"npz".as_slice() {
        Some(OutputFormat::Npz)
    } else {
        None
    }
}

/// Whether a format is that of a database.
pub fn is_sqlite(format: Option<OutputFormat>) -> bool
    ensures { result ≡ is_sqlite format }
{
    matches!(format, Some(OutputFormat::Sqlite))
}

/// Whether a format is that of NumPy's arrays.
pub fn is_npz(format: Option<OutputFormat>) -> bool
    ensures { result ≡ is_npz format }
{
    matches!(format, Some(OutputFormat::Npz))
}

/// Whether a format isn't text: nothing in it goes to a terminal.
pub fn is_binary(format: Option<OutputFormat>) -> bool
    ensures { result ≡ is_binary format }
{
    is_sqlite(format) || is_npz(format)
}

/// Whether a command writes a format.
pub fn writes(command: Command, format: OutputFormat) -> bool
    ensures { result ≡ writes command format }
{
    match command {
        Command::Convert => true,
        Command::Batch => format != OutputFormat::Csv,
        Command::Load
        | Command::Sniff
        | Command::Summary
        | Command::Profile
        | Command::Rejects
        | Command::Make
        | Command::Split => false,
    }
}
