//! What a sync of several attempts may be: the generations of each attempt, and when its saved states are safe.
#![tactic(auto)]

mod laws;

pub use laws::{
    breaches_as_worked, calls_as_worked, calls_join, calls_lead, calls_tell, fronts_are_safe,
    generations_as_worked, given_are_passed, honest_calls_are_safe, honest_is_safe, lines_take,
    owed_is_put, owed_was_taken, own_events_tell, safe_is_plain, saved_reads_back, sets_take,
    stays_safe, store_holds, syncs_as_worked, taken_rise, ways_join, ways_know, ways_part,
};
