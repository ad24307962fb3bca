// How a run of the command that is built ends.
ghost use Rattle.std.specs.Prelude.{◌≡◌};
ghost use Rattle.worker_run.specs.Ends.{status_of};

use outside::Status;

/// How an attempt, and a run, of the command that is built may end.
#[derive(Clone, Copy, Debug, PartialEq, Eq)]
pub enum End {
    /// Every line was taken.
    Ok,
    /// The words have another form.
    Usage,
    /// A text could not be read.
    FileFault,
    /// A line could not be said.
    SayFault,
    /// This line, from 1, is not taken; at 0 it is the catalog.
    Unbuilt { line: u64 },
    /// No memory was left.
    NoMemory,
}

impl End {
    /// The status of this end.
    pub fn status(self) -> Status
        ensures { result ≡ status_of self }
    {
        match self {
            End::Ok => Status::Ok,
            End::Usage => Status::Usage,
            End::FileFault => Status::FileFault,
            End::SayFault => Status::SayFault,
            End::Unbuilt { line } => Status::Unbuilt { line },
            End::NoMemory => Status::NoMemory,
        }
    }
}
