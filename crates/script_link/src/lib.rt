//! A link in memory that plays what the children of each attempt are to do.
#![tactic(auto)]

mod answers;
mod link_trace;
mod script_link;

pub use link_trace::{ToldAt, ToldList};
pub use script_link::{PolledList, Script, ScriptLink, ScriptList};
