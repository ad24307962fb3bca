//! One attempt of a sync, turn by turn: a source's lines go to a destination, and what comes back is saved.
#![tactic(auto)]

mod dest;
mod give;
mod laws;
mod say;
mod source;
mod worker;

pub use dest::read_dest;
pub use give::offer_held;
pub use laws::{ways_as_worked, ways_go_on};
pub use say::say_line;
pub use source::read_source;
pub use worker::{Moved, Worker};
