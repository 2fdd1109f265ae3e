// The numbers that options take. Code, definitions and messages cite these, so a number of an option stands here alone.

/// The numbers that an option takes, and the one that it has where words give none.
#[derive(Clone, Copy)]
pub struct NumberRange {
    pub least: u64,
    pub most: u64,
    pub default: u64,
}

/// Lines that are passed over at the start.
pub const SKIP: NumberRange = NumberRange {
    least: 0,
    most: 1_000_000,
    default: 0,
};

/// Rows that are looked at.
pub const SAMPLE_SIZE: NumberRange = NumberRange {
    least: 1,
    most: 1_000_000,
    default: 20_480,
};

/// Rejects that are listed; 0 lists all.
pub const REJECTS_LIMIT: NumberRange = NumberRange {
    least: 0,
    most: 4_294_967_295,
    default: 0,
};

/// Faults that a table may have; any number of them where no bound is given.
pub const MAX_ERRORS: NumberRange = NumberRange {
    least: 0,
    most: 4_294_967_295,
    default: 4_294_967_295,
};

/// Bytes of a row.
pub const MAX_LINE_SIZE: NumberRange = NumberRange {
    least: 1,
    most: 4_194_304,
    default: 2_097_152,
};

/// Bytes of an input.
pub const MAX_INPUT: NumberRange = NumberRange {
    least: 1,
    most: 4_294_967_296,
    default: 1_073_741_824,
};

/// Workers.
pub const THREADS: NumberRange = NumberRange {
    least: 1,
    most: 64,
    default: 4,
};

/// Bytes of a range.
pub const RANGE_SIZE: NumberRange = NumberRange {
    least: 1,
    most: 67_108_864,
    default: 1_048_576,
};

/// Bytes of which a part of a file has about as many. It has no default, since the command that has it can't do without.
pub const SIZE: NumberRange = NumberRange {
    least: 1,
    most: 4_294_967_296,
    default: 4_294_967_296,
};

/// The most rows that are made.
pub const ROW_LIMIT: u64 = 10_000_000;

/// Rows that are made.
pub const ROWS: NumberRange = NumberRange {
    least: 0,
    most: ROW_LIMIT,
    default: 1_000,
};

/// The most bytes of the name of a database's table.
pub const TABLE_NAME_LIMIT: usize = 1_000;

/// The most bytes of the name of the file that is written.
pub const OUTPUT_NAME_LIMIT: usize = 4_096;

/// The most columns whose types are given by name.
pub const COLUMN_TYPES_LIMIT: usize = 1_000;

/// The most texts that stand for null.
pub const NULLS_LIMIT: usize = 1_000;

/// The most names, or types, of a list.
pub const COLUMN_LIMIT: usize = 1_000_000;
