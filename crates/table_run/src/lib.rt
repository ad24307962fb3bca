//! The source of tables as a command: `spec`, `check`, `discover` and `read`.
#![tactic(auto)]

mod begin;
mod run;

pub use run::{SourceEnd, run_source};
