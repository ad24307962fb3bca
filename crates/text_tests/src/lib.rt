//! Tests of how lines, JSON texts and messages are read, with values that were worked out elsewhere.
#![tactic(auto)]

#[cfg(test)]
mod echoes;
#[cfg(test)]
mod fields;
#[cfg(test)]
mod kinds;
#[cfg(test)]
mod lines;
#[cfg(test)]
mod numbers;
#[cfg(test)]
mod objects;
#[cfg(test)]
mod outsides;
#[cfg(test)]
mod pieces;
#[cfg(test)]
mod reading;
#[cfg(test)]
mod records;
#[cfg(test)]
mod spans;
#[cfg(test)]
mod states;
#[cfg(test)]
mod strings;
