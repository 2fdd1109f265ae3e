//! Values at the front of a text that goes on behind them, as fields in their row: a row that is looked at once finds a
//! field's end and its value together.
mod number;
mod values;

pub use number::{FrontNumber, bigint_front, is_numeral};
pub use values::{
    FrontDay, FrontMicros, FrontTruth, boolean_front, date_front, is_plain, stamp_front, time_front,
};
