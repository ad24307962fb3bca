// What a book answers, and how far it is.
use batch_prep::Prepared;
use outside::Status;

/// What became of a call on the input.
#[derive(Clone, Copy, Debug, PartialEq, Eq)]
pub enum Accepted {
    /// A line was taken, or the record that waited for room has it now.
    Took,
    /// No line stood ready.
    NotYet,
    /// The input has ended.
    End,
    /// The record that was taken, or that waited for room, has no room yet.
    Full,
    /// The book is broken, by this.
    Broken(Status),
}

/// How a book stands.
#[derive(Clone, Copy, Debug, PartialEq, Eq)]
pub enum BookState {
    Running,
    Ended,
    Broken(Status),
}

/// Whether a load's states are of one stream each or of all streams.
#[derive(Clone, Copy, Debug, PartialEq, Eq)]
pub enum Lanes {
    Streams,
    All,
}

/// How far a book is.
#[derive(Clone, Copy, Debug, PartialEq, Eq)]
pub struct Tally {
    /// The lines that were taken.
    pub lines: u64,
    /// The echoes that were emitted.
    pub emitted: u64,
    /// What the load's states are of, from its first one on.
    pub lanes: Option<Lanes>,
    /// The input has ended.
    pub is_ended: bool,
    /// What broke the book first.
    pub broken: Option<Status>,
}

/// What became of a batch.
#[derive(Debug, Drop)]
pub enum Put {
    /// Its rows were committed, and all states that this set free were emitted.
    Done,
    /// No batch with its number is handed out: it comes back.
    Stranger(Prepared),
    /// The book is broken, by this.
    Broken(Status),
}

/// What became of a stream at the end of a load.
#[derive(Clone, Copy, Debug, PartialEq, Eq)]
pub enum Finished {
    /// All its rows are merged, where it is deduplicated. It was not hidden, or it was shown before.
    Kept,
    /// All its rows are merged, where it is deduplicated, and it is shown now.
    Shown,
    /// Its last status is not that it is complete.
    NotComplete,
    /// A record is uncommitted, or the input goes on.
    Undrained,
}
