//! Which states a destination may send back: those whose records are committed, lane by lane in their order.
#![tactic(auto)]

mod counts;
mod gate;
mod merge;
mod pending;

pub use gate::Gate;
pub use pending::{Accepted, Lane, Pending, Waiting};
