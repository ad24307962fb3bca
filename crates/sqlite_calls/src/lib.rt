//! SQL over one database, in calls that name no type of the SQL library and promise nothing.
//!
//! What stands above is generic over `Database` and `Opener`, so that it is proved without a connection. The types have
//! a `Drop` that is written out, so that nothing above proves again how a connection's parts are dropped.
#![tactic(auto)]

mod database;
mod fault;
mod open_database;
mod parameter;
mod result_set;

pub use database::{Database, Opener, Statement};
pub use open_database::OpenDatabase;
pub use parameter::{LONGEST_VALUE, Parameter};
pub use result_set::ResultSet;
