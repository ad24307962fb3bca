//! The columns of a stream, how values are written in them, and the values that rows are ordered and told apart by.
#![tactic(auto)]

mod column;
mod columns;
mod instant;
mod kind;
mod number;
mod property;
mod typed;
mod value;

pub use column::{Column, Columns};
pub use columns::{columns_of, is_instant};
pub use kind::ColumnType;
pub use typed::{Typed, Way, type_value, way_of};
pub use value::{text_along, value_along, value_in, value_of};
