//! The outside in memory: objects that keep what they are given and tell it, for tests and for runs of one process.
#![tactic(auto)]

mod call_count;
mod dock_trace;
mod mem_desk;
mod mem_dock;
mod mem_sink;
mod mem_source;
mod mem_store;

pub use call_count::CallCount;
pub use mem_desk::{MemDesk, NamedText, NamedTextList};
pub use mem_dock::MemDock;
pub use mem_sink::MemSink;
pub use mem_source::MemSource;
