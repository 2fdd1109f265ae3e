// How many rows are made at once.
ghost use Rattle.std.specs.Prelude.{◌<◌};

/// At most so many rows are made at once, however short their lines: those of the rows behind may be longer.
pub(crate) const BLOCK_ROWS: usize = 65_536;

/// How many rows are made at once next, so that their lines take about so many bytes: more where all texts of some were short, and
/// fewer where one was long.
pub(crate) fn fit(at_once: usize, longest: usize, bytes: usize) -> usize
    requires { 0 < at_once }
    ensures { 0 < result }
{
    if longest > bytes {
        return (at_once / 2).max(1);
    }
    if longest > bytes / 2 {
        return at_once;
    }
    at_once.saturating_mul(2).min(BLOCK_ROWS)
}
