//! The words of the programs' commands.
#![tactic(auto)]

mod commands;
mod connectors;
mod pairs;
mod usage;

pub use commands::{Command, read_words};
pub use connectors::{DestCommand, SourceCommand, dest_words, source_words};
pub use usage::usage_text;
