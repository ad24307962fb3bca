//! What a ledger knows, in the words of attempts: which line of a source is a breach or is passed on, and which states wait to come
//! back.
#![tactic(auto)]

mod laws;

pub use laws::ledgers_stand;
