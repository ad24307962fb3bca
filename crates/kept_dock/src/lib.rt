//! A dock over any keeper of tables: it counts, keeps the marks of the sides, tests what the keeper answers, and tells nothing.
#![tactic(auto)]

mod dock;
mod keeper;
mod page;
mod store;

pub use dock::KeptDock;
pub use keeper::{Keeper, KeptLoad};
