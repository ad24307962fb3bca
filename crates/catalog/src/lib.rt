//! Configured catalogs: the streams of a sync, read and checked, found by name, dealt out to lanes, and written with their
//! generations.
#![tactic(auto)]

mod configured;
mod entry;
mod judge;
mod members;
mod modes;
mod parts;
mod paths;
mod read;
mod stream;
mod write;

pub use configured::Configured;
pub use modes::{DestMode, SyncMode};
pub use read::read_configured;
pub use stream::{ConfStream, Gen, GenList};
pub use write::{catalogs_read_back, one_catalog_text, write_catalog};
