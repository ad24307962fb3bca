//! The configuration of a source of tables.
#![tactic(auto)]

mod config;
mod laws;
mod list;
mod read;

pub use config::{DEEPEST_SCHEMA, MOST_EVERY, TableConfig, TableEntry, USUAL_EVERY};
pub use laws::firsts_count;
pub use list::TableEntryList;
pub use read::read_table_config;
