// What a worker keeps of an attempt.
use basics::Bytes;
use state_kinds::SavedSet;
use sync_ledger::Ledger;

/// Whether a step brought something.
#[derive(Clone, Copy, Debug, PartialEq, Eq)]
pub enum Moved {
    Yes,
    No,
}

/// What a worker keeps of an attempt.
#[derive(Drop)]
pub struct Worker {
    /// The number of the attempt, from 1.
    pub number: u32,
    pub ledger: Ledger,
    /// The saved set.
    pub set: SavedSet,
    /// The line that is to be given next.
    pub held: Option<Bytes>,
    /// That line is one of the worker's own, which tells that a stream is complete.
    pub is_completing: bool,
    /// Of so many streams it is settled whether they need such a line.
    pub completed: u32,
    /// How many lines came back.
    pub got_lines: u64,
    pub closed: bool,
    pub read_over: bool,
    pub got_over: bool,
}
