// The bytes that detection looks at.
ghost use Rattle.std.specs.Prelude.{◌≡◌, ◌≤◌, length};
ghost use Rattle.std.specs.List.{last_or};
ghost use Rattle.byte_classes.specs.Dialect.{is_byte};
ghost use Rattle.csv_sniffer.specs.Sample.{sample_limit, sample_of, without_last_cr};

/// The most bytes of a sample.
pub const SAMPLE_LIMIT: usize = 4_194_304;

/// Whether the last byte is a CR.
fn ends_with_cr(bytes: &[u8]) -> bool
    ensures { result ≡ is_byte (last_or None bytes.now) 13 }
{
    match bytes.last() {
        Some(last) => *last == b'\r',
        None => false,
    }
}

/// The bytes without a CR at their end, so that no CR LF pair is cut.
fn without_last_cr(bytes: &[u8]) -> &[u8]
    ensures { result.now ≡ without_last_cr bytes.now }
{
    if ends_with_cr(bytes) {
        &bytes[..bytes.len() - 1]
    } else {
        bytes
    }
}

/// The first bytes, which detection looks at.
pub fn sample_of(bytes: &[u8]) -> &[u8]
    ensures value { result.now ≡ sample_of bytes.now }
    ensures within { length result.now ≤ sample_limit }
{
    if bytes.len() <= SAMPLE_LIMIT {
        return bytes;
    }
    without_last_cr(&bytes[..SAMPLE_LIMIT])
}
