//! Saved sets: for each stream a generation and perhaps a state, and perhaps a state of all streams; how an attempt begins
//! with one, how a state is put into it, and the texts that it is kept in and that a source is started with.
#![tactic(auto)]

mod begin;
mod entry;
mod form;
mod laws;
mod once;
mod one_line;
mod read;
mod set;
mod states;
mod stored;
mod write;

pub use entry::SavedEntry;
pub use laws::{sets_read_back, sets_stay_writable};
pub use read::read_store;
pub use set::SavedSet;
pub use states::{StateList, read_list};
pub use write::{write_list, write_store};
