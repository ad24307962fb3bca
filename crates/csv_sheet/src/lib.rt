//! A text of CSV (RFC 4180) as a sheet: the names of its columns, and its records, all of them texts.
#![tactic(auto)]

mod read;
mod sheet;

pub use read::{SheetFault, read_sheet};
pub use sheet::Sheet;
