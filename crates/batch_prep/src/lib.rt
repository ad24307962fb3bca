//! Rows of the lines of a batch.
#![tactic(auto)]

mod batch;
mod cells;
mod changes;
mod finder;
mod ids;
mod item;
mod key;
mod layout;
mod prepared;
mod row;

pub use batch::prepare;
pub use item::{PrepPlan, WorkItem};
pub use prepared::Prepared;
