//! The winners of deduplicated streams, and their merges by pages.
#![tactic(auto)]

mod candidate;
mod laws;
mod pages;
mod rows;

pub use candidate::{cursor_value, exceeds};
pub use laws::{
    all_merged, exceeded_row_does_not_fit, fitting_merges_have_winners, pages_merge_all,
};
pub use pages::{MergeFault, Merged, merge_page};
pub use rows::winners;
