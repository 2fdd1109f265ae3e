//! Numbers that are known by how many digits they have: each such text spells a BIGINT.
ghost use Rattle.std.specs.Prelude.{◌≡◌};
ghost use Rattle.std.specs.Char.{is_ascii_digit};
ghost use Rattle.std.specs.List.{list_all};
ghost use Rattle.value_types.specs.KeptTypes.{is_plain_number};

/// Whether all bytes are digits.
#[inline(always)]
fn are_digits(text: &[u8]) -> bool
    ensures { result ≡ list_all is_ascii_digit text.now }
{
    text.iter().all(|byte| byte.is_ascii_digit())
}

/// Whether the text is one digit to eighteen digits, as most numbers are.
#[inline(always)]
pub fn is_plain_number(text: &[u8]) -> bool
    ensures { result ≡ is_plain_number text.now }
{
    !text.is_empty() && text.len() <= 18 && are_digits(text)
}
