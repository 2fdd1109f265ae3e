//! A first line that tells the delimiter to a spreadsheet.
ghost use Rattle.std.specs.Prelude.{◌≡◌, ◌+◌, ◌≤◌, length};
ghost use Rattle.csv_sniffer.specs.SeparatorLine.{ends_line_at, has_separator_at, is_line_end, is_quoted_line, is_separator_line, tells_delimiter};

/// Whether a byte ends a line.
fn is_line_end(byte: u8) -> bool
    ensures { result ≡ is_line_end byte }
{
    byte == b'\n' || byte == b'\r'
}

/// Whether a line ends at a place, or all bytes.
fn ends_line_at(bytes: &[u8], at: usize) -> bool
    requires within { at ≤ length bytes.now }
    ensures { result ≡ ends_line_at bytes.now at }
{
    at == bytes.len() || is_line_end(bytes[at])
}

/// Whether `sep=`, in any ASCII case, stands at a place, and one more ASCII character of its line.
fn has_separator_at(bytes: &[u8], at: usize) -> bool
    requires within { at + 5 ≤ length bytes.now }
    ensures { result ≡ has_separator_at bytes.now at }
{
    bytes[at].eq_ignore_ascii_case(&b's')
        && bytes[at + 1].eq_ignore_ascii_case(&b'e')
        && bytes[at + 2].eq_ignore_ascii_case(&b'p')
        && bytes[at + 3] == b'='
        && bytes[at + 4].is_ascii()
        && !is_line_end(bytes[at + 4])
}

/// Whether the first line is that.
fn is_separator_line(bytes: &[u8]) -> bool
    ensures { result ≡ is_separator_line bytes.now }
{
    bytes.len() >= 5 && has_separator_at(bytes, 0) && ends_line_at(bytes, 5)
}

/// The same between two `"`.
fn is_quoted_line(bytes: &[u8]) -> bool
    ensures { result ≡ is_quoted_line bytes.now }
{
    bytes.len() >= 7
        && bytes[0] == b'"'
        && has_separator_at(bytes, 1)
        && bytes[6] == b'"'
        && ends_line_at(bytes, 7)
}

/// Whether the first line of some bytes tells the delimiter to a spreadsheet.
pub fn tells_delimiter(bytes: &[u8]) -> bool
    ensures { result ≡ tells_delimiter bytes.now }
{
    is_separator_line(bytes) || is_quoted_line(bytes)
}
