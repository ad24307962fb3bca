//! The parts of a book and the calls on them: each call does what the book's rules say that it answers.
#![tactic(auto)]

mod batches;
mod calls;
mod finish;
mod heard;
mod opened;
mod parts;
mod plan;
mod release;
mod same;
mod start;

pub use parts::Parts;
pub use start::new_parts;
