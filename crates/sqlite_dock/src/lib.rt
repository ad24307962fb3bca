//! A destination's store and a source's tables in SQLite.
#![tactic(auto)]

mod keeper;
mod table_rows;

pub use keeper::{SqliteDock, SqliteKeeper};
pub use table_rows::SqliteRows;
