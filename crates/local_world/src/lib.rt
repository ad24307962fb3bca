//! A world in one process: a source that gives a file of lines again, behind saved states.
#![tactic(auto)]

mod awaited;
mod front;
mod laws;
mod left_lines;
mod message_feed;

pub use laws::{files_replay, files_resume, others_stay};
pub use message_feed::MessageFeed;
