//! What is left of bytes.
ghost use Rattle.std.specs.Prelude.{◌≡◌, ◌≤◌, length, drop};

use csv_source::Buffer;

/// What stands in a buffer behind its first bytes.
pub fn behind(mut bytes: Buffer, front: usize) -> Buffer
    requires { front ≤ length bytes }
    ensures { result ≡ drop front bytes }
{
    if front > 0 {
        bytes.drop_front(front);
    }
    bytes
}
