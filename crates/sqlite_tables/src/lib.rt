//! A destination's tables in a SQL database, and the tables that a source reads. No call here promises anything: the
//! dock above tests what it must.
#![tactic(auto)]

mod form;
mod part;
mod rows;
mod schema;
mod source_rows;
mod statements;
mod stream_line;
mod tables;
mod transaction;

pub use source_rows::SqlRows;
pub use tables::{OpenedLoad, SqlTables};
