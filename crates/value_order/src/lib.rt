//! Values that rows are ordered and told apart by: their order, and the text of each.
#![tactic(auto)]

mod decimal;
mod order;
mod read;
mod text;
mod value;

pub use decimal::Decimal;
pub use order::{compare, order_is_total, ties_are_equal};
pub use read::read_value;
pub use text::{put_value, texts_are_distinct, texts_end, ties_have_one_text, value_text};
pub use value::Value;
