//! The configuration of a source of CSV files.
#![tactic(auto)]

mod config;

pub use config::{FileConfig, FileEntry, FileEntryList, MOST_EVERY, USUAL_EVERY, read_file_config};
