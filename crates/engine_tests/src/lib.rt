//! Tests of the parts of the write engine, with values that were worked out elsewhere.
#![tactic(auto)]

#[cfg(test)]
mod book_plays;
#[cfg(test)]
mod books;
#[cfg(test)]
mod finishes;
#[cfg(test)]
mod gates;
#[cfg(test)]
mod pools;
#[cfg(test)]
mod queues;
