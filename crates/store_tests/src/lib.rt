//! Tests of the destination's store in memory and of streams of bytes: generations, merges by pages, what a reader
//! sees, and calls that fail.
#![tactic(auto)]

#[cfg(test)]
mod bytes;
#[cfg(test)]
mod generations;
#[cfg(test)]
mod merges;
#[cfg(test)]
mod rows;
#[cfg(test)]
mod script;
#[cfg(test)]
mod watched;
#[cfg(test)]
mod winners;
