// How much a profile keeps.

/// At most so many different values of a column are kept and counted.
pub const MOST_DIFFERENT: usize = 1000;
