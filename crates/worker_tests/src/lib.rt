//! Tests of the worker's top call and of the plain world, over a desk in memory.
#![tactic(auto)]

#[cfg(test)]
mod desks;
#[cfg(test)]
mod failing;
#[cfg(test)]
mod local;
#[cfg(test)]
mod source_lines;
#[cfg(test)]
mod statuses;
#[cfg(test)]
mod world;
