//! Airbyte messages, written as lines.
#![tactic(auto)]

mod parts;
mod payload;
mod trace;
mod write;

pub use parts::put_id;
pub use write::{read_has_forms, write_message};
