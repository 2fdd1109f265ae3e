// The least and the greatest of numbers.
ghost use Rattle.std.specs.Prelude.{◌≡◌, Some};
ghost use Rattle.value_types.specs.Extent.{taking_in, widened};

/// The least and the greatest of some numbers.
#[derive(Clone, Copy)]
pub struct Extent {
    pub least: i64,
    pub greatest: i64,
}

/// An extent that takes in a number.
pub fn taking_in(extent: Option<Extent>, number: i64) -> Extent
    ensures { Some result ≡ taking_in extent number }
{
    match extent {
        None => Extent {
            least: number,
            greatest: number,
        },
        Some(extent) => Extent {
            least: extent.least.min(number),
            greatest: extent.greatest.max(number),
        },
    }
}

/// The extent of the numbers of two.
pub fn widened(extent: Option<Extent>, other: Option<Extent>) -> Option<Extent>
    ensures { result ≡ widened extent other }
{
    let Some(extent) = extent else {
        return other;
    };
    let Some(other) = other else {
        return Some(extent);
    };
    Some(Extent {
        least: extent.least.min(other.least),
        greatest: extent.greatest.max(other.greatest),
    })
}
