//! Tests of configured catalogs and of saved sets, with values that were worked out elsewhere.
#![tactic(auto)]

#[cfg(test)]
mod catalogs;
#[cfg(test)]
mod faults;
#[cfg(test)]
mod parts;
#[cfg(test)]
mod sets;
#[cfg(test)]
mod stores;
