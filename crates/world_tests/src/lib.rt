//! Tests of the world in one process, with values that were worked out by hand.
#![tactic(auto)]

#[cfg(test)]
mod feeds;
