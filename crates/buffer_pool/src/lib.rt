//! The records of a load that wait to be committed: a queue for each stream, in room that is made once.
#![tactic(auto)]

mod pool;
mod slot;

pub use pool::Pool;
pub use slot::{Chain, Slot};
