//! Tests of what a worker remembers of an attempt, with answers that were worked out elsewhere.
#![tactic(auto)]

#[cfg(test)]
mod ledgers;
#[cfg(test)]
mod lines;
#[cfg(test)]
mod plays;
