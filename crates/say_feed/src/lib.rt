//! The lines of a feed, said on a desk.
#![tactic(auto)]

mod said;

pub use said::{say_feed, say_line, write_out};
