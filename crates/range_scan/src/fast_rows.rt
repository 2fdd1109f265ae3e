//! Rows that are found and cast by one look at their bytes.
//! Each field is looked at where the one before it ended: its value is cast and goes into its column at once. Where a row isn't
//! of this kind, nothing of it is kept, and it is read as any other row, field by field and then value by value.
mod fields;
mod kinds;
mod number_fields;
mod numbers;
mod pushing;
mod texts;

pub use kinds::FastRows;
pub use pushing::push_fast;
