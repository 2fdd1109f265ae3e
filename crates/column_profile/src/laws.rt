//! Laws over the definitions.
ghost use Rattle.column_profile.specs.Laws.{CellsAreCounted, DifferentAreKeptOnce, LengthsAreExact, PortionsCompose, PortionsMakeAll, SpansAreExact};

/// Of each column the nulls and the other cells together are the rows.
pub fn cells_are_counted()
    ensures { CellsAreCounted }
{}

/// Of the different values each is one of a cell, no two are the same, and none is left out.
pub fn different_are_kept_once()
    ensures { DifferentAreKeptOnce }
{}

/// The least and the greatest value are values of cells, and no value stands below or above them.
pub fn spans_are_exact()
    ensures { SpansAreExact }
{}

/// The shortest and the longest text are texts of cells, and none is shorter or longer.
pub fn lengths_are_exact()
    ensures { LengthsAreExact }
{}

/// However rows are portioned, what they come to is the profile of all.
pub fn portions_make_all()
    ensures compose { PortionsCompose }
    ensures all { PortionsMakeAll }
{}
