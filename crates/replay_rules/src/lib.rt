//! What retries of a source that can be replayed leave.
#![tactic(auto)]

mod laws;

pub use laws::{
    all_are_latest, calls_stay_sound, done_are_above, fronts_are_sound, replays_as_worked,
    rows_are_copies, saved_are_committed, saved_are_latest, saved_rise, saved_stand,
    seen_are_above,
};
