// The streams of a source, and the rows of each.
ghost use Rattle.std.specs.Prelude.{◌≡◌, ◌⊎◌, ℕ, List, Option, Result, Ok, Err, IfOk, IfErr};
ghost use Rattle.basics.specs.Told.{RoseIf};
ghost use Rattle.json_fields.specs.Answer.{IsAnswer};
ghost use Rattle.outside.specs.declared.status.Status.{Status};
ghost use Rattle.outside.specs.declared.status.Status.TheVariants as status;
ghost use Rattle.catalog.specs.declared.stream.ConfStream.{ConfStream};
ghost use Rattle.source_lines.specs.Sources.{Listed, OpensAlike, OpensNot, SourceSeen};

use crate::ListedRows;
use basics::{Bytes, Name, NoMemory, StreamNo};
use catalog::ConfStream;
use outside::Status;
use std::alloc::Global;

/// A stream whose rows were read: those that are to come, in order; the blob that a state before them carries; and after
/// how many records a state is due.
#[derive(Drop)]
pub struct OpenStream<L> {
    pub every: u32,
    pub blob: Bytes,
    pub rows: L,
}

/// A source of streams, each of which has a name, a place to start at, and rows.
///
/// A call changes only what its clauses name. What a stream may have is a relation: each call narrows it, and a source that tells
/// nothing of its rows says that a stream may have any. The count of faults never falls, stays in a call that does not answer
/// `RowFault`, and ends at the largest `u64`.
pub trait StreamSource {
    /// Where a stream starts.
    type Start: Drop;

    /// The rows of a stream.
    type Rows: ListedRows + Drop;

    /// The stream starts there with this blob.
    ghost Starts: { ConfStream → Option (List ℕ) → Self.Start → Type 0 };

    /// What a stream may have, by its number in the catalog, the stream, and where it starts: its rows, or why it is refused.
    ghost Opens: { Self → ℕ → ConfStream → Self.Start → Result Listed Status → Type 0 };

    /// The names that it knows, and the count of faults.
    ghost seen: { Self → SourceSeen };

    /// Whether it has a stream of this name.
    fn knows(&self, name: &Name) -> bool
        ensures { result ≡ (seen self.now).is_known name.now };

    /// Where a stream starts with this blob, or without one; `None` where the blob has another form.
    fn start_of(
        alloc: Global,
        stream: &ConfStream,
        blob: &Option<Bytes>,
    ) -> Result<Option<Self::Start>, NoMemory>
        ensures { IfOk result (IsAnswer (Starts stream.now blob.now)) };

    /// Makes the source ready to open streams. It comes behind all checks of the texts that a feed is begun with.
    fn make_ready(&mut self, alloc: Global) -> Result<(), Status>
        ensures refused { IfErr result (λ why. (why ≡ status.NoMemory) ⊎ (why ≡ status.RowFault)) }
        ensures alike { OpensAlike (Opens self.old) (Opens self.new) }
        ensures faults { RoseIf (result ≡ Err status.RowFault) (seen self.old).faults (seen self.new).faults }
        ensures stays { ¬ (result ≡ Err status.RowFault) → (seen self.new).faults ≡ (seen self.old).faults }
        ensures others { seen self.new ≡ record (seen self.old) { faults = (seen self.new).faults } };

    /// Reads and checks the rows of a stream, which has this number in the catalog. What a stream has that the source does not
    /// know is the source's to tell.
    fn open_stream(
        &mut self,
        alloc: Global,
        number: StreamNo,
        stream: &ConfStream,
        start: &Self::Start,
    ) -> Result<OpenStream<Self::Rows>, Status>
        ensures opened { IfOk result (λ found. Opens self.old number stream.now start.now (Ok (record { every = found.every; blob = found.blob; rows = Self.Rows.rows found.rows }))) }
        ensures refused { IfErr result (OpensNot (Opens self.old number stream.now start.now)) }
        ensures alike { OpensAlike (Opens self.old) (Opens self.new) }
        ensures faults { RoseIf (result ≡ Err status.RowFault) (seen self.old).faults (seen self.new).faults }
        ensures stays { ¬ (result ≡ Err status.RowFault) → (seen self.new).faults ≡ (seen self.old).faults }
        ensures others { seen self.new ≡ record (seen self.old) { faults = (seen self.new).faults } };
}
