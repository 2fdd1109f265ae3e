//! Words that give the name of the file that is written.
ghost use Rattle.std.specs.Prelude.{◌≡◌};
ghost use Rattle.load_options.specs.FileNames.{is_output_name};

use crate::limits::OUTPUT_NAME_LIMIT;

/// Whether a text may be the name of a file. `-` isn't taken, as it would be read as standard output.
pub fn is_output_name(text: &[u8]) -> bool
    ensures { result ≡ is_output_name text.now }
{
    !text.is_empty()
        && text.len() <= OUTPUT_NAME_LIMIT
        && !text.contains(&0)
        && text != b"-".as_slice()
}
