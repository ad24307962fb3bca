//! The records of a load that wait to be committed: which of them are sealed, and which are handed out in batches.
#![tactic(auto)]

mod batch;
mod lane;
mod queue;

pub use batch::Handed;
pub use queue::BookQueue;
