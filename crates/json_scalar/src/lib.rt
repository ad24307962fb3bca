//! The scalars of JSON: strings and numbers, decided by the grammar of RFC 8259.
#![tactic(auto)]

mod decimal;
mod number;
mod text;

pub use decimal::{Decimal, decimal_of};
pub use number::whole_of;
pub use text::{is_string_of, quote, text_of};
