//! Rejects behind some lines, for the book of a longer text.
ghost use Rattle.std.specs.Prelude.{◌≡◌, ◌+◌, ◌<◌, ◌^◌, All, map};
ghost use Rattle.reject_book.specs.declared.reject.Reject.{Reject};
ghost use Rattle.reject_book.specs.Kept.{raised};

use crate::reject::Reject;

/// Raises the line of each reject.
pub(crate) fn raise_lines(rejects: &mut [Reject], lines: u64)
    requires fits { All (λ (r : Reject). lines + r.line < 2 ^ 64) rejects.old }
    ensures { rejects.new ≡ map (raised lines) rejects.old }
{
    for reject in rejects.iter_mut() {
        reject.line = lines + reject.line;
    }
}
