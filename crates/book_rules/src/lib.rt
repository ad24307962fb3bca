//! What a book of a load answers, what each answer means, and the laws that lead from answers to runs of the machine.
#![tactic(auto)]

mod answer;
mod laws;

pub use answer::{Accepted, BookState, Finished, Lanes, Put, Tally};
pub use laws::{
    accept_keeps, books_are_ready, books_are_safe, books_can_finish, books_can_put, close_keeps,
    drained_ends_load, ends_finished, ends_incomplete, finish_is_done, finish_keeps, finish_leaves,
    finish_leaves_done, give_back_keeps, pick_keeps, push_keeps, put_keeps, readers_read_last,
    recall_keeps, refused_keeps, starts_begin, take_output_keeps,
};
