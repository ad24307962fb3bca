//! The source of CSV files as a program: it does what its words ask for, and its exit status is the number of the run's status.
#![tactic(auto)]

use outside::{Status, StdDesk};
use program_start::{moment, words_of};
use std::process::ExitCode;

// Runs the source over the files and the standard output of this process.
fn status_of(rt: &HostRuntime) -> Status {
    let Ok(words) = words_of(rt) else {
        return Status::NoMemory;
    };
    let Ok(mut desk) = StdDesk::new(rt.alloc(), rt) else {
        return Status::NoMemory;
    };
    file_run::run_source(rt.alloc(), &mut desk, moment(rt), &words)
}

fn main(rt: HostRuntime) -> ExitCode {
    let number = status_of(&rt).number();
    ExitCode::from(u8::try_from(number).unwrap_or(u8::MAX))
}
