//! The lines of a source of bytes as they come, and lines that go to a sink of bytes at once.
#![tactic(auto)]

mod input;
mod output;

pub use input::InputLines;
pub use output::OutputLines;
