//! The source of CSV files as a command: `spec`, `check`, `discover` and `read`.
#![tactic(auto)]

mod run;

pub use run::run_source;
