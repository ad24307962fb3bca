//! What a load may be: a safe destination, an honest attempt, a run of the write engine, and the machine behind it.
#![tactic(auto)]

mod laws;

pub use laws::{
    attempts_are_safe, drained_is_done, echoes_as_worked, ends_as_worked, finished_is_complete,
    fronts_are_runs, fronts_are_safe, held_are_uncommitted, honest_attempts_add, lanes_cover,
    no_state_is_left, opening_is_safe, order_is_free, piped_are_taken, pipes_are_honest,
    prefixes_fit, rows_are_own, runs_are_honest, runs_are_ordered, runs_are_safe, runs_as_worked,
    runs_grow, runs_stay_safe, safe_commits_fit, sealed_in_front, sides_stand, stays_safe,
    store_merges_fit, stores_as_worked, visible_is_seen,
};
