//! Why a value isn't allowed.
ghost use Rattle.std.specs.Prelude.{◌≡◌};
ghost use Rattle.load_options.specs.Reasons.{Explains};
ghost use Rattle.load_options.specs.declared.reason.Reason.TheVariants.{Other};

/// What is wrong with a value. A place is that of a piece, from 0, where the value is cut at each comma.
#[derive(Clone, Copy)]
pub enum Reason {
    /// It has more pieces than this.
    TooMany(usize),
    /// The name of a place is empty.
    Empty(usize),
    /// The text, or the name, of a place comes again behind it.
    Twice(usize),
    /// What stands at a place gives no type.
    NoType(usize),
    /// It is out of range, or of another form.
    Other,
}

/// A reason, unless a value is allowed.
pub fn other_unless(is_allowed: bool) -> Option<Reason>
    ensures { Explains result is_allowed (λ reason. reason ≡ Other) }
{
    if is_allowed {
        None
    } else {
        Some(Reason::Other)
    }
}
