//! The worker's top call, and the plain world that it runs.
#![tactic(auto)]

mod catalog;
mod end;
mod events;
mod judge;
mod lines;
mod output;
mod plain_world;
mod store;
mod top;
mod words;

pub use plain_world::{PlainWorld, Step};
pub use top::run;
