//! The book of a load: what a destination took and has not committed, and the states that wait for it.
#![tactic(auto)]

mod book;

pub use book::Book;
