//! A destination's store in one file of comma-separated values, which is written anew as a whole at each change. It is meant for
//! small tables.
#![tactic(auto)]

mod fields;
mod folder;
mod form;
mod keeper;
mod places;
mod read;
mod write;

pub use folder::{Folder, LONGEST_STORE, StdFolder};
pub use keeper::{FileDock, FileKeeper};
