//! Tests of both sources: what their commands say over files, texts and rows in memory, with values that were worked out by hand
//! or by Python's csv module.
#![tactic(auto)]

#[cfg(test)]
mod answers;
#[cfg(test)]
mod faults;
#[cfg(test)]
mod files;
#[cfg(test)]
mod runs;
#[cfg(test)]
mod table_answers;
#[cfg(test)]
mod table_reads;
#[cfg(test)]
mod table_runs;
