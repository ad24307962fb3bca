//! Tests of values, columns and rows, with expected values that were worked out elsewhere.
#![tactic(auto)]

#[cfg(test)]
mod columns;
#[cfg(test)]
mod decimals;
#[cfg(test)]
mod order;
#[cfg(test)]
mod rows;
#[cfg(test)]
mod texts;
#[cfg(test)]
mod typed;
#[cfg(test)]
mod values;
