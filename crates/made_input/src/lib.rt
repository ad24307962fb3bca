//! Made input: lines of two streams and their catalog, by arithmetic alone, so that a load of any size can be tried.
#![tactic(auto)]

mod configured;
mod lines;
mod put;

pub use configured::made_catalog;
pub use lines::{MadeLines, made_lines};
