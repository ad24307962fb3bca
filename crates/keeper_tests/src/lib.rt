//! Tests of stores that last: what a dock over a file answers, beside a dock in memory on which the same is done; the tables
//! of a source; lines as they come.
#![tactic(auto)]

#[cfg(test)]
mod draw;
#[cfg(test)]
mod files;
#[cfg(test)]
mod input;
#[cfg(test)]
mod play;
#[cfg(test)]
mod rows;
#[cfg(test)]
mod source_tables;
#[cfg(test)]
mod stores;
