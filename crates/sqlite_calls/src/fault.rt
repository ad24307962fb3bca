// What the errors of the library come to.
use outside::Fault;
use sqlite::{Error, ErrorCode};

pub fn fault_of(error: Error) -> Fault {
    match error {
        Error::SqliteFailure(ErrorCode::OutOfMemory) => Fault::NoMemory,
        _ => Fault::Failed,
    }
}
