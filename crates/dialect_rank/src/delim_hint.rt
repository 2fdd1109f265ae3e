//! Another delimiter under which rows would have several fields.
ghost use Rattle.std.specs.Prelude.{◌≡◌};
ghost use Rattle.std.specs.List.{list_all};
ghost use Rattle.dialect_rank.specs.DelimHint.{agrees_most, agrees_no_more, cuts_more, delim_among, may_hint, other_delim};

use crate::scored::Scored;
use crate::scores::Score;
use load_options::Options;

/// Whether rows mostly have several fields under a candidate whose delimiter is another one.
fn cuts_more(delim: u8, candidate: &Scored) -> bool
    ensures { result ≡ cuts_more delim candidate.now }
{
    candidate.dialect.delim() != delim && candidate.score.mode >= 2
}

/// Whether a candidate is no such one, or rows agree on it no more than on another.
fn agrees_no_more(delim: u8, candidate: &Scored, other: &Scored) -> bool
    ensures { result ≡ agrees_no_more delim candidate.now other.now }
{
    !cuts_more(delim, candidate) || candidate.score.agree <= other.score.agree
}

/// Whether rows agree on no such candidate more than on one.
fn all_agree_no_more(delim: u8, scored: &[Scored], candidate: &Scored) -> bool
    ensures { result ≡ list_all (λ other. agrees_no_more delim other candidate.now) scored.now }
{
    scored
        .iter()
        .all(|other| agrees_no_more(delim, other, candidate))
}

/// Whether a candidate is such a one, and rows agree on none more than on it.
fn agrees_most(delim: u8, scored: &[Scored], candidate: &Scored) -> bool
    ensures { result ≡ agrees_most delim scored.now candidate.now }
{
    cuts_more(delim, candidate) && all_agree_no_more(delim, scored, candidate)
}

/// The delimiter of the first such candidate.
fn delim_among(delim: u8, scored: &[Scored]) -> Option<u8>
    ensures { result ≡ delim_among delim scored.now }
{
    for candidate in scored {
        if agrees_most(delim, scored, candidate) {
            return Some(candidate.dialect.delim());
        }
    }
    None
}

/// Whether another delimiter may be worth a hint: under the best dialect most rows have one field, and the delimiter isn't
/// given.
pub fn may_hint(options: &Options, best: &Score) -> bool
    ensures { result ≡ may_hint options.now best.now }
{
    options.delim.is_none() && best.mode == 1
}

/// Another delimiter under which rows would mostly have several fields, where they have one under the best dialect, whose
/// delimiter and score are given, and no delimiter is given: that of the candidate on which most rows agree, the first of
/// several.
pub fn other_delim(options: &Options, delim: u8, best: &Score, scored: &[Scored]) -> Option<u8>
    ensures { result ≡ other_delim options.now delim best.now scored.now }
{
    if !may_hint(options, best) {
        return None;
    }
    delim_among(delim, scored)
}
