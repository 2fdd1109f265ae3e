//! The mark that may stand before a text (the Unicode Standard, section 23.8).
ghost use Rattle.std.specs.Prelude.{◌≡◌, nat_eq};
ghost use Rattle.std.specs.List.{starts_with};
ghost use Rattle.byte_classes.specs.ByteOrderMark.{byte_order_mark};

/// The bytes of a byte order mark in UTF-8.
pub const BYTE_ORDER_MARK: [u8; 3] = [0xEF, 0xBB, 0xBF];

/// Whether a text begins with a byte order mark.
pub fn has_byte_order_mark(text: &[u8]) -> bool
    ensures { result ≡ starts_with nat_eq text.now byte_order_mark }
{
    text.starts_with(&BYTE_ORDER_MARK)
}
