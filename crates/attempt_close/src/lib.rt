//! How an attempt of a sync goes to its end: the lines that tell that streams are complete, the close of the destination's
//! input, the codes of both children, turns and silence, and how the attempt has ended then.
#![tactic(auto)]

mod close;
mod codes;
mod complete;
mod ended;
mod run;
mod turn;

pub use codes::end_of_fault;
pub use run::{QUIET_TURNS, run_turns};
