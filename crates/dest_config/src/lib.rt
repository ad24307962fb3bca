//! The configuration of a destination.
#![tactic(auto)]

mod config;

pub use config::{DestConfig, DestKind, read_dest_config};
