//! The tables of a store as the streams of a source.
#![tactic(auto)]

mod blob;
mod laws;
mod source;

pub use blob::{behind_of, first_blob_of, is_start_blob};
pub use laws::{blobs_read_back, tables_replay};
pub use source::{TableFeed, TableSource};
