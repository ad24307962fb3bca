//! The rows of a source: reading a whole table, and tables in memory.
#![tactic(auto)]

mod mem_rows;
mod pages;

pub use mem_rows::{MemRows, TableRow, TableRowList};
pub use pages::all_rows;
