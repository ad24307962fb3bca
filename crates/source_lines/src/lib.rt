//! The lines of a source's streams: records in order, states where they are due, and the statuses around them.
#![tactic(auto)]

mod begin;
mod feed;
mod heads;
mod laws;
mod round;
mod source;
mod turn;

pub use begin::begin_checks;
pub use feed::SourceFeed;
pub use laws::{cuts_anew, lines_by_turns, lines_resume};
pub use source::{OpenStream, StreamSource};
pub use turn::{ListedRows, Stage, StreamTurn};
