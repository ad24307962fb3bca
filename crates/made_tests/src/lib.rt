//! Tests of made input, of a destination's configuration and of a link that plays scripts, with values that were worked out
//! elsewhere.
#![tactic(auto)]

#[cfg(test)]
mod configs;
#[cfg(test)]
mod made;
#[cfg(test)]
mod scripts;
