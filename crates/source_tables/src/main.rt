//! The source of tables in an SQLite database as a program: it does what its words ask for, and its exit status is the number of the
//! run's status.
#![tactic(auto)]

use outside::{Status, StdDesk};
use program_start::{moment, words_of};
use sqlite_dock::SqliteRows;
use sqlite_file::FileOpener;
use std::process::ExitCode;

// Runs the source over the texts, the database and the standard output of this process.
fn status_of(rt: &HostRuntime) -> Status {
    let Ok(words) = words_of(rt) else {
        return Status::NoMemory;
    };
    let Ok(mut desk) = StdDesk::new(rt.alloc(), rt) else {
        return Status::NoMemory;
    };
    let rows = SqliteRows::new(FileOpener::new(rt));
    table_run::run_source(rt.alloc(), &mut desk, rows, moment(rt), &words).status
}

fn main(rt: HostRuntime) -> ExitCode {
    let number = status_of(&rt).number();
    ExitCode::from(u8::try_from(number).unwrap_or(u8::MAX))
}
