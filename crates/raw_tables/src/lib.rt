//! The tables that a list of events makes, and what a reader sees of them.
#![tactic(auto)]

mod change;
mod find;
mod read;
mod reader;
mod step;

pub use read::{page, read_marks, read_page, read_winner, showing};
pub use reader::visible;
pub use step::{apply, commit, empty_tables, merge, open_load, show, tables_of};
