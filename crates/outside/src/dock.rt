// The dock: a destination's input, its output and its store, as the write engine reaches them.
ghost use Rattle.std.specs.Prelude.{◌≡◌, ◌<◌, ◌≤◌, ◌^◌, ℕ, length, map, slice_index, IfOk, IfSome, IsSome, IsErrOf, OnOk, OnErr};
ghost use Rattle.outside.specs.declared.event.Event.{Event};
ghost use Rattle.basics.specs.Told.{RoseIf, Rose};
ghost use Rattle.outside.specs.Link.{AddsOn, kind_of, QuietPoll};
ghost use Rattle.outside.specs.Tables.{marks_in, page_of, winner_of, side_marks_of};
ghost use Rattle.outside.specs.Hand.{HandPolls, HandEmits, IsOpen, hand_pushed, hand_closed, fresh_hand};
ghost use Rattle.outside.specs.Dock.{DockSeen, dock_events, tables, DockGrew, DockMoves, TookAdds, IsWithinLimit, IsPlace, OpenAdds, OpenFace, merged_face, ShowAdds, IsPage, PageReads, ReadAtMost, OpensCount, counts_of, HasOwnIds, with_hand, TakesOutput};

use crate::{
    DockCounts, Fault, Load, LoadPlan, MarksList, Polled, RawRow, RawRowList, StreamIdList,
    Unmerged,
};
use basics::{Bytes, NoMemory, StreamNo};
use std::alloc::Global;

/// All that a dock counts, of which `counts` gives the first four. No count falls, and each ends at the largest `u64`.
#[derive(Clone, Copy, Debug, PartialEq, Eq)]
pub struct DockTally {
    /// Polls that failed.
    pub read_faults: u64,
    /// Calls on the store that failed.
    pub store_faults: u64,
    /// Lines that could not be written.
    pub write_faults: u64,
    /// Polls that brought nothing.
    pub quiet: u64,
    /// Stores that were opened.
    pub opens: u64,
}

/// A destination's input, its output and its store.
///
/// A call changes only what its clauses name, and takes no event away. A call that answers `Failed` has made its
/// change wholly or not at all. Each event is told with the counts as they stood when it was added. Where a dock tells
/// its trace, its store holds what the trace makes of the empty store, and its answers are of that.
///
/// A stream is named by its place in the plan of the last load that was opened.
pub trait Dock {
    /// The trace where it is told, the counts, and what is known of every dock.
    ghost seen: { Self → DockSeen };

    /// Opens the store of that name, or makes it.
    fn open_store(&mut self, name: &str) -> Result<(), Fault>
        ensures grew { DockGrew (seen self.old) (seen self.new) }
        ensures events { dock_events (seen self.new) ≡ dock_events (seen self.old) }
        ensures face { (seen self.new).face ≡ (seen self.old).face }
        ensures rows_read { (seen self.new).rows_read ≡ (seen self.old).rows_read }
        ensures opens { OpensCount result (seen self.old).counts.opens (seen self.new).counts.opens }
        ensures faults { RoseIf (IsErrOf result Fault.Failed) (seen self.old).counts.store_faults (seen self.new).counts.store_faults }
        ensures counts { (seen self.new).counts ≡ record ((seen self.old).counts) { store_faults = (seen self.new).counts.store_faults; opens = (seen self.new).counts.opens } };

    /// What the input gives now. It does not block.
    fn poll_line(&mut self) -> Polled
        ensures grew { DockGrew (seen self.old) (seen self.new) }
        ensures moves { DockMoves (seen self.old) (seen self.new) }
        ensures events { TookAdds result (dock_events (seen self.old)) (dock_events (seen self.new)) }
        ensures within { IsWithinLimit result }
        ensures face { (seen self.new).face ≡ record ((seen self.old).face) { poll = kind_of result; hand = (seen self.new).face.hand } }
        ensures hand { HandPolls result (seen self.old).face.hand (seen self.new).face.hand }
        ensures rows_read { (seen self.new).rows_read ≡ (seen self.old).rows_read }
        ensures quiet { QuietPoll result (seen self.old).counts.quiet (seen self.new).counts.quiet }
        ensures faults { RoseIf (result ≡ Polled.Failed) (seen self.old).counts.read_faults (seen self.new).counts.read_faults }
        ensures counts { (seen self.new).counts ≡ record ((seen self.old).counts) { read_faults = (seen self.new).counts.read_faults; quiet = (seen self.new).counts.quiet } };

    /// The marks of these streams, in their order. A stream that never came has floor 0 and nothing else.
    fn read_marks(&mut self, alloc: Global, streams: &StreamIdList) -> Result<MarksList, Fault>
        ensures grew { DockGrew (seen self.old) (seen self.new) }
        ensures one_each { IfOk result (λ marks. length marks ≡ length streams.now) }
        ensures marks { IfOk result (λ marks. IfSome (tables (seen self.old)) (λ store. marks ≡ map (marks_in store) streams.now)) }
        ensures events { dock_events (seen self.new) ≡ dock_events (seen self.old) }
        ensures face { (seen self.new).face ≡ (seen self.old).face }
        ensures rows_read { (seen self.new).rows_read ≡ (seen self.old).rows_read }
        ensures faults { RoseIf (IsErrOf result Fault.Failed) (seen self.old).counts.store_faults (seen self.new).counts.store_faults }
        ensures counts { (seen self.new).counts ≡ record ((seen self.old).counts) { store_faults = (seen self.new).counts.store_faults } };

    /// Opens a load of these streams. Its number is one above that of the last. At `Failed` the load may be open, and
    /// what is known of the streams is that of the load before: the next call on streams is `open_load` again.
    fn open_load(&mut self, plan: &LoadPlan) -> Result<Load, Fault>
        requires { HasOwnIds plan.now }
        ensures grew { DockGrew (seen self.old) (seen self.new) }
        ensures events { OpenAdds result plan.now (seen self.old).face.moment (dock_events (seen self.old)) (dock_events (seen self.new)) }
        ensures face { OpenFace result plan.now (seen self.old).face (seen self.new).face }
        ensures side_marks { IfOk result (λ _. IfSome (tables (seen self.new)) (λ store. (seen self.new).face.side_marks ≡ side_marks_of store)) }
        ensures rows_read { (seen self.new).rows_read ≡ (seen self.old).rows_read }
        ensures faults { RoseIf (IsErrOf result Fault.Failed) (seen self.old).counts.store_faults (seen self.new).counts.store_faults }
        ensures counts { (seen self.new).counts ≡ record ((seen self.old).counts) { store_faults = (seen self.new).counts.store_faults } };

    /// Commits rows of a stream of the load.
    fn commit(&mut self, stream: StreamNo, rows: &RawRowList) -> Result<(), Fault>
        requires { stream < length (seen self.old).face.side_marks }
        ensures grew { DockGrew (seen self.old) (seen self.new) }
        ensures moves { DockMoves (seen self.old) (seen self.new) }
        ensures events { AddsOn result (Event.Committed stream rows.now) (dock_events (seen self.old)) (dock_events (seen self.new)) }
        ensures face { (seen self.new).face ≡ (seen self.old).face }
        ensures rows_read { (seen self.new).rows_read ≡ (seen self.old).rows_read }
        ensures faults { RoseIf (IsErrOf result Fault.Failed) (seen self.old).counts.store_faults (seen self.new).counts.store_faults }
        ensures counts { (seen self.new).counts ≡ record ((seen self.old).counts) { store_faults = (seen self.new).counts.store_faults } };

    /// Writes a line; the newline behind it is the dock's.
    fn emit(&mut self, line: &[u8]) -> Result<(), Fault>
        ensures grew { DockGrew (seen self.old) (seen self.new) }
        ensures moves { DockMoves (seen self.old) (seen self.new) }
        ensures events { AddsOn result (Event.Emitted line.now) (dock_events (seen self.old)) (dock_events (seen self.new)) }
        ensures face { (seen self.new).face ≡ record ((seen self.old).face) { hand = (seen self.new).face.hand } }
        ensures hand { HandEmits result line.now (seen self.old).face.hand (seen self.new).face.hand }
        ensures rows_read { (seen self.new).rows_read ≡ (seen self.old).rows_read }
        ensures faults { RoseIf (IsErrOf result Fault.Failed) (seen self.old).counts.write_faults (seen self.new).counts.write_faults }
        ensures counts { (seen self.new).counts ≡ record ((seen self.old).counts) { write_faults = (seen self.new).counts.write_faults } };

    /// The next rows of a stream that its side has not merged, at most `most` of them.
    fn read_unmerged(
        &mut self,
        alloc: Global,
        stream: StreamNo,
        most: u32,
    ) -> Result<Unmerged, Fault>
        requires known { stream < length (seen self.old).face.side_marks }
        requires some { 0 < most }
        ensures grew { DockGrew (seen self.old) (seen self.new) }
        ensures is_page { IfOk result (λ page. IsPage (slice_index (seen self.old).face.side_marks stream) most page) }
        ensures page { IfOk result (λ page. IfSome (tables (seen self.old)) (λ store. page ≡ page_of store stream most)) }
        ensures events { dock_events (seen self.new) ≡ dock_events (seen self.old) }
        ensures face { (seen self.new).face ≡ (seen self.old).face }
        ensures rows_read { PageReads result (seen self.old).rows_read (seen self.new).rows_read }
        ensures faults { RoseIf (IsErrOf result Fault.Failed) (seen self.old).counts.store_faults (seen self.new).counts.store_faults }
        ensures counts { (seen self.new).counts ≡ record ((seen self.old).counts) { store_faults = (seen self.new).counts.store_faults } };

    /// The winner of a key on the side that the load uses of the stream.
    fn read_winner(
        &mut self,
        alloc: Global,
        stream: StreamNo,
        key: &[u8],
    ) -> Result<Option<RawRow>, Fault>
        requires { stream < length (seen self.old).face.side_marks }
        ensures grew { DockGrew (seen self.old) (seen self.new) }
        ensures winner { IfOk result (λ winner. IfSome (tables (seen self.old)) (λ store. winner ≡ winner_of store stream key.now)) }
        ensures events { dock_events (seen self.new) ≡ dock_events (seen self.old) }
        ensures face { (seen self.new).face ≡ (seen self.old).face }
        ensures rows_read { ReadAtMost 1 (seen self.old).rows_read (seen self.new).rows_read }
        ensures faults { RoseIf (IsErrOf result Fault.Failed) (seen self.old).counts.store_faults (seen self.new).counts.store_faults }
        ensures counts { (seen self.new).counts ≡ record ((seen self.old).counts) { store_faults = (seen self.new).counts.store_faults } };

    /// Puts these winners in the place of those of their keys, and sets the mark of the stream's side.
    fn merge(&mut self, stream: StreamNo, winners: &RawRowList, mark: u64) -> Result<(), Fault>
        requires known { stream < length (seen self.old).face.side_marks }
        requires place { IsPlace mark }
        ensures grew { DockGrew (seen self.old) (seen self.new) }
        ensures moves { DockMoves (seen self.old) (seen self.new) }
        ensures events { AddsOn result (Event.Merged stream winners.now mark) (dock_events (seen self.old)) (dock_events (seen self.new)) }
        ensures face { (seen self.new).face ≡ merged_face result stream mark (seen self.old).face }
        ensures rows_read { (seen self.new).rows_read ≡ (seen self.old).rows_read }
        ensures faults { RoseIf (IsErrOf result Fault.Failed) (seen self.old).counts.store_faults (seen self.new).counts.store_faults }
        ensures counts { (seen self.new).counts ≡ record ((seen self.old).counts) { store_faults = (seen self.new).counts.store_faults } };

    /// Makes a stream's hidden side the shown one. Where its side is the shown one already, nothing but the event is new.
    fn show(&mut self, stream: StreamNo) -> Result<(), Fault>
        requires { stream < length (seen self.old).face.side_marks }
        ensures grew { DockGrew (seen self.old) (seen self.new) }
        ensures moves { DockMoves (seen self.old) (seen self.new) }
        ensures events { ShowAdds result stream (dock_events (seen self.old)) (dock_events (seen self.new)) }
        ensures face { (seen self.new).face ≡ (seen self.old).face }
        ensures rows_read { (seen self.new).rows_read ≡ (seen self.old).rows_read }
        ensures faults { RoseIf (IsErrOf result Fault.Failed) (seen self.old).counts.store_faults (seen self.new).counts.store_faults }
        ensures counts { (seen self.new).counts ≡ record ((seen self.old).counts) { store_faults = (seen self.new).counts.store_faults } };

    /// Returns when something may have changed, or after about a second.
    fn wait(&mut self)
        ensures { seen self.new ≡ seen self.old };

    /// The counts as they stand.
    fn counts(&self) -> DockCounts
        ensures { result ≡ counts_of (seen self.now).counts };
}

/// A dock whose input and output are in memory.
///
/// Its polls give the lines that were pushed, in order, and then a torn piece. None of these calls changes the store,
/// the trace or a count.
pub trait HandDock: Dock {
    /// Puts a line behind those that wait.
    fn push_input(&mut self, line: Bytes) -> Result<(), NoMemory>
        requires { IsOpen (Self.seen self.old).face.hand }
        ensures ok { OnOk result (Self.seen self.new ≡ with_hand (hand_pushed line) (Self.seen self.old)) }
        ensures err { OnErr result (Self.seen self.new ≡ Self.seen self.old) };

    /// Ends the input, with a last piece that has no newline. A blank one is nothing.
    fn close_input(&mut self, torn: Option<Bytes>)
        ensures { Self.seen self.new ≡ with_hand (hand_closed torn) (Self.seen self.old) };

    /// The next emitted line that was not taken out; `None` exactly where there is none.
    fn take_output(&mut self) -> Option<Bytes>
        ensures { TakesOutput result (Self.seen self.old) (Self.seen self.new) };

    /// How many pushed lines were not given.
    fn waiting(&self) -> u64
        ensures { IfSome (Self.seen self.now).face.hand (λ hand. result ≡ length hand.waiting) };

    /// Opens the input anew, with nothing waiting, and drops the output that was not taken out.
    fn reopen(&mut self)
        ensures { Self.seen self.new ≡ with_hand (λ _. fresh_hand) (Self.seen self.old) };

    /// Such a dock has its input and its output in memory.
    ghost in_memory: { (dock : Self) → IsSome (Self.seen dock).face.hand };
}
