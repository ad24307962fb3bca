// A dock in memory.
ghost use Rattle.std.specs.Prelude.{◌≡◌, ⊤};
ghost use Rattle.basics.specs.Told.{RoseIf};
ghost use Rattle.outside.specs.Link.{kind_of};

use crate::call_count::CallCount;
use crate::mem_store::MemStore;
use basics::LONGEST_LINE;
use outside::{
    Bytes, Copies, Dock, DockCounts, DockTally, Event, EventList, FailList, Fault, HandDock, Load,
    LoadPlan, MarksList, NoMemory, PollKind, Polled, RawRow, RawRowList, StreamIdList, StreamNo,
    Tables, Unmerged,
};
use std::alloc::Global;
use std::collections::VecDeque;
use std::marker::Model;
use text_lines::is_line;

/// A dock whose input, output and store are in memory, and which tells its trace. Of its calls that can fail, counted
/// from 1, those whose numbers it was given do, and change nothing.
///
/// A winner is read, and each winner of a merge and each row of a commit put in its place, in logarithmic or constant
/// time in the number of winners.
#[derive(Drop)]
pub struct MemDock {
    alloc: Global,
    moment: u64,
    calls: CallCount,
    store: MemStore,
    tally: DockTally,
    poll: PollKind,
    rows_read: u64,
    waiting: VecDeque<Bytes>,
    torn: Option<Bytes>,
    is_open: bool,
    output: VecDeque<Bytes>,
}

impl Model for MemDock {
    ghost use Rattle.outside_mem.specs.MemDock.{DockState, hand_of};

    ghost Value = { DockState };

    ghost view = { λ dock. record { trace = dock.store; tally = dock.tally; poll = dock.poll; rows_read = dock.rows_read; hand = hand_of dock.waiting.items dock.torn dock.is_open dock.output.items; moment = dock.moment; calls = dock.calls } };
}

// The kind of a poll's answer.
fn kind_of_poll(polled: &Polled) -> PollKind
    ensures { result ≡ kind_of polled.now }
{
    match polled {
        Polled::Line(_) => PollKind::Line,
        Polled::Torn(_) => PollKind::Torn,
        Polled::TooLong => PollKind::TooLong,
        _ => PollKind::Other,
    }
}

impl MemDock {
    ghost use Rattle.std.specs.Prelude.{◌≡◌, map, OnOk, OnErr, IfOk, ◌++◌, ◌∷◌, [], ⊤};
    ghost use Rattle.basics.specs.Told.{RoseIf};
    ghost use Rattle.outside.specs.Dock.{event_of};
    ghost use Rattle.outside.specs.Hand.{hand_emitted};
    ghost use Rattle.outside.specs.declared.event.Event.{Event};
    ghost use Rattle.outside_mem.specs.MemDock.{told, first_state, trace_tables};

    /// A dock in which nothing happened, whose loads have this moment.
    pub fn new(alloc: Global, moment: u64, fails: FailList) -> Result<Self, NoMemory>
        ensures { IfOk result (λ dock. dock ≡ first_state moment fails) }
    {
        Ok(MemDock {
            alloc,
            moment,
            calls: CallCount::new(fails),
            store: MemStore::new(alloc),
            tally: DockTally {
                read_faults: 0,
                store_faults: 0,
                write_faults: 0,
                quiet: 0,
                opens: 0,
            },
            poll: PollKind::Other,
            rows_read: 0,
            waiting: VecDeque::new(alloc),
            torn: None,
            is_open: true,
            output: VecDeque::new(alloc),
        })
    }

    /// The events so far, in order.
    pub fn events(&self) -> &EventList
        ensures { result.now ≡ map event_of self.now.trace }
    {
        self.store.events()
    }

    /// The tables that the events make.
    pub fn tables(&self) -> &Tables
        ensures { result.now ≡ trace_tables self.now.trace }
    {
        self.store.tables()
    }

    /// How many rows were read of the store.
    pub fn rows_read(&self) -> u64
        ensures { result ≡ self.now.rows_read }
    {
        self.rows_read
    }

    // Counts a fault of the store.
    fn fail_store(&mut self) -> Fault
        ensures result { result ≡ Fault.Failed }
        ensures risen { RoseIf ⊤ self.old.tally.store_faults self.new.tally.store_faults }
        ensures others { self.new ≡ record (self.old) { tally = record (self.old.tally) { store_faults = self.new.tally.store_faults } } }
    {
        self.tally.store_faults = self.tally.store_faults.saturating_add(1);
        Fault::Failed
    }

    // Counts a fault of the output.
    fn fail_write(&mut self) -> Fault
        ensures result { result ≡ Fault.Failed }
        ensures risen { RoseIf ⊤ self.old.tally.write_faults self.new.tally.write_faults }
        ensures others { self.new ≡ record (self.old) { tally = record (self.old.tally) { write_faults = self.new.tally.write_faults } } }
    {
        self.tally.write_faults = self.tally.write_faults.saturating_add(1);
        Fault::Failed
    }

    // Puts a line behind the output, and its event behind the others.
    fn keep_line(&mut self, line: &[u8]) -> Result<(), NoMemory>
        ensures ok { OnOk result (self.new ≡ record (self.old) { trace = self.old.trace ++ told (Event.Emitted line.now) self.old.tally ∷ []; hand = hand_emitted line.now self.old.hand }) }
        ensures err { OnErr result (self.new ≡ self.old) }
    {
        let event = Event::Emitted(Bytes::copy_of(self.alloc, line)?);
        self.output.push_back(Bytes::copy_of(self.alloc, line)?)?;
        match self.store.note(event, self.tally) {
            Ok(()) => Ok(()),
            Err(fault) => {
                self.output.pop_back();
                Err(fault)
            }
        }
    }
}

impl MemDock {
    ghost use Rattle.std.specs.Prelude.{◌≡◌, ◌<◌, length, [], OnOk, OnErr, ◌++◌, ◌∷◌};
    ghost use Rattle.basics.specs.Told.{RoseIf};
    ghost use Rattle.outside.specs.Link.{QuietPoll};
    ghost use Rattle.outside.specs.Hand.{HandPolls};
    ghost use Rattle.outside.specs.Dock.{DockGrew, DockMoves, TookAdds, IsWithinLimit, dock_events};
    ghost use Rattle.outside.specs.declared.event.Event.{Event};
    ghost use Rattle.outside.specs.Tables.{side_marks_of};
    ghost use Rattle.std.specs.Prelude.{Contains};
    ghost use Rattle.outside_mem.specs.Calls.{next_call, call_made};
    ghost use Rattle.outside_mem.specs.MemDock.{told, seen_of, Gives, trace_tables, FailsOnly};

    // Adds that a line was taken.
    fn took(&mut self, line: &[u8]) -> Result<(), NoMemory>
        ensures ok { OnOk result (self.new ≡ record (self.old) { trace = self.old.trace ++ told (Event.Took line.now) self.old.tally ∷ [] }) }
        ensures err { OnErr result (self.new ≡ self.old) }
    {
        let event = Event::Took(Bytes::copy_of(self.alloc, line)?);
        self.store.note(event, self.tally)
    }

    // Gives the first line that waits. One above the limit stays.
    fn give_line(&mut self) -> Polled
        requires { 0 < length self.old.hand.waiting }
        ensures { Gives result self.old self.new }
    {
        let line = match self.waiting.front() {
            Some(line) => line.copy(self.alloc),
            None => return Polled::NoMemory,
        };
        let line = match line {
            Ok(line) => line,
            Err(_) => return Polled::NoMemory,
        };
        if line.len() > LONGEST_LINE {
            return Polled::TooLong;
        }
        match self.took(line.as_slice()) {
            Ok(()) => {
                self.waiting.pop_front();
                Polled::Line(line)
            }
            Err(_) => Polled::NoMemory,
        }
    }

    // Gives the torn piece. One above the limit stays.
    fn give_torn(&mut self) -> Polled
        requires waiting { self.old.hand.waiting ≡ [] }
        ensures { Gives result self.old self.new }
    {
        let torn = match &self.torn {
            Some(torn) => torn.copy(self.alloc),
            None => return self.give_end(),
        };
        let torn = match torn {
            Ok(torn) => torn,
            Err(_) => return Polled::NoMemory,
        };
        if torn.len() > LONGEST_LINE {
            return Polled::TooLong;
        }
        match self.took(torn.as_slice()) {
            Ok(()) => {
                self.torn = None;
                Polled::Torn(torn)
            }
            Err(_) => Polled::NoMemory,
        }
    }

    // Answers where nothing waits.
    fn give_end(&mut self) -> Polled
        requires waiting { self.old.hand.waiting ≡ [] }
        requires torn { self.old.hand.torn ≡ None }
        ensures { Gives result self.old self.new }
    {
        if self.is_open {
            self.tally.quiet = self.tally.quiet.saturating_add(1);
            return Polled::NotYet;
        }
        match self.store.end_input(self.tally) {
            Ok(()) => Polled::End,
            Err(_) => Polled::NoMemory,
        }
    }

    // What the input gives, or a fault.
    #[tactic(auto, using(crate::proofs::PollLemmas::gives_grew, crate::proofs::PollLemmas::gives_events, crate::proofs::PollLemmas::gives_marks, crate::proofs::PollLemmas::gives_quiet, crate::proofs::PollLemmas::gives_faults, crate::proofs::DockLemmas::grew_same, crate::proofs::MoveLemmas::moves_same, crate::proofs::MoveLemmas::moves_given))]
    fn next_or_fail(&mut self) -> Polled
        ensures grew { DockGrew (seen_of self.old) (seen_of self.new) }
        ensures moves { DockMoves (seen_of self.old) (seen_of self.new) }
        ensures events { TookAdds result (dock_events (seen_of self.old)) (dock_events (seen_of self.new)) }
        ensures within { IsWithinLimit result }
        ensures hand { HandPolls result (Some self.old.hand) (Some self.new.hand) }
        ensures marks { side_marks_of (trace_tables self.new.trace) ≡ side_marks_of (trace_tables self.old.trace) }
        ensures rows_read { self.new.rows_read ≡ self.old.rows_read }
        ensures moment { self.new.moment ≡ self.old.moment }
        ensures quiet { QuietPoll result self.old.tally.quiet self.new.tally.quiet }
        ensures faults { RoseIf (result ≡ Polled.Failed) self.old.tally.read_faults self.new.tally.read_faults }
        ensures counts { self.new.tally ≡ record (self.old.tally) { read_faults = self.new.tally.read_faults; quiet = self.new.tally.quiet } }
        ensures calls { self.new.calls ≡ call_made self.old.calls }
        ensures passes { ¬ Contains self.old.calls.fails (next_call self.old.calls) → ¬ result ≡ Polled.Failed }
        ensures failed { result ≡ Polled.Failed → FailsOnly self.old self.new }
    {
        if self.calls.is_failing() {
            self.tally.read_faults = self.tally.read_faults.saturating_add(1);
            return Polled::Failed;
        }
        if self.waiting.is_empty() {
            self.give_torn()
        } else {
            self.give_line()
        }
    }
}

impl Dock for MemDock {
    ghost use Rattle.std.specs.Prelude.{◌≡◌, ◌<◌, ◌≤◌, ◌^◌, ℕ, length, map, slice_index, Contains, IfOk, IfSome, IsSome, IsErrOf, OnOk, OnErr};
    ghost use Rattle.basics.specs.Told.{RoseIf, Rose};
    ghost use Rattle.outside.specs.declared.event.Event.{Event};
    ghost use Rattle.outside.specs.Link.{AddsOn, kind_of, QuietPoll};
    ghost use Rattle.outside.specs.Tables.{marks_in, page_of, winner_of, side_marks_of};
    ghost use Rattle.outside.specs.Hand.{HandPolls, HandEmits};
    ghost use Rattle.outside.specs.Dock.{dock_events, tables, DockGrew, DockMoves, TookAdds, IsWithinLimit, IsPlace, OpenAdds, OpenFace, merged_face, ShowAdds, IsPage, PageReads, ReadAtMost, OpensCount, HasOwnIds};
    ghost use Rattle.outside_mem.specs.Calls.{next_call, call_made};
    ghost use Rattle.outside_mem.specs.MemDock.{seen_of, FailsOnly, FailsPoll};

    ghost seen = { seen_of };

    #[tactic(auto, using(crate::proofs::DockLemmas::grew_same))]
    fn open_store(&mut self, _: &str) -> Result<(), Fault>
        ensures grew { DockGrew (seen_of self.old) (seen_of self.new) }
        ensures events { dock_events (seen_of self.new) ≡ dock_events (seen_of self.old) }
        ensures face { (seen_of self.new).face ≡ (seen_of self.old).face }
        ensures rows_read { (seen_of self.new).rows_read ≡ (seen_of self.old).rows_read }
        ensures opens { OpensCount result (seen_of self.old).counts.opens (seen_of self.new).counts.opens }
        ensures faults { RoseIf (IsErrOf result Fault.Failed) (seen_of self.old).counts.store_faults (seen_of self.new).counts.store_faults }
        ensures counts { (seen_of self.new).counts ≡ record ((seen_of self.old).counts) { store_faults = (seen_of self.new).counts.store_faults; opens = (seen_of self.new).counts.opens } }
        ensures calls { self.new.calls ≡ call_made self.old.calls }
        ensures passes { OnOk result (¬ Contains self.old.calls.fails (next_call self.old.calls)) }
        ensures failed { IsErrOf result Fault.Failed → FailsOnly self.old self.new }
    {
        if self.calls.is_failing() {
            return Err(self.fail_store());
        }
        self.tally.opens = self.tally.opens.saturating_add(1);
        Ok(())
    }

    fn poll_line(&mut self) -> Polled
        ensures grew { DockGrew (seen_of self.old) (seen_of self.new) }
        ensures moves { DockMoves (seen_of self.old) (seen_of self.new) }
        ensures events { TookAdds result (dock_events (seen_of self.old)) (dock_events (seen_of self.new)) }
        ensures within { IsWithinLimit result }
        ensures face { (seen_of self.new).face ≡ record ((seen_of self.old).face) { poll = kind_of result; hand = (seen_of self.new).face.hand } }
        ensures hand { HandPolls result (seen_of self.old).face.hand (seen_of self.new).face.hand }
        ensures rows_read { (seen_of self.new).rows_read ≡ (seen_of self.old).rows_read }
        ensures quiet { QuietPoll result (seen_of self.old).counts.quiet (seen_of self.new).counts.quiet }
        ensures faults { RoseIf (result ≡ Polled.Failed) (seen_of self.old).counts.read_faults (seen_of self.new).counts.read_faults }
        ensures counts { (seen_of self.new).counts ≡ record ((seen_of self.old).counts) { read_faults = (seen_of self.new).counts.read_faults; quiet = (seen_of self.new).counts.quiet } }
        ensures calls { self.new.calls ≡ call_made self.old.calls }
        ensures passes { ¬ Contains self.old.calls.fails (next_call self.old.calls) → ¬ result ≡ Polled.Failed }
        ensures failed { result ≡ Polled.Failed → FailsPoll self.old self.new }
    {
        let polled = self.next_or_fail();
        self.poll = kind_of_poll(&polled);
        polled
    }

    #[tactic(auto, using(crate::proofs::DockLemmas::grew_same))]
    fn read_marks(&mut self, alloc: Global, streams: &StreamIdList) -> Result<MarksList, Fault>
        ensures grew { DockGrew (seen_of self.old) (seen_of self.new) }
        ensures one_each { IfOk result (λ marks. length marks ≡ length streams.now) }
        ensures marks { IfOk result (λ marks. IfSome (tables (seen_of self.old)) (λ store. marks ≡ map (marks_in store) streams.now)) }
        ensures events { dock_events (seen_of self.new) ≡ dock_events (seen_of self.old) }
        ensures face { (seen_of self.new).face ≡ (seen_of self.old).face }
        ensures rows_read { (seen_of self.new).rows_read ≡ (seen_of self.old).rows_read }
        ensures faults { RoseIf (IsErrOf result Fault.Failed) (seen_of self.old).counts.store_faults (seen_of self.new).counts.store_faults }
        ensures counts { (seen_of self.new).counts ≡ record ((seen_of self.old).counts) { store_faults = (seen_of self.new).counts.store_faults } }
        ensures calls { self.new.calls ≡ call_made self.old.calls }
        ensures passes { OnOk result (¬ Contains self.old.calls.fails (next_call self.old.calls)) }
        ensures failed { IsErrOf result Fault.Failed → FailsOnly self.old self.new }
    {
        if self.calls.is_failing() {
            return Err(self.fail_store());
        }
        Ok(self.store.marks(alloc, streams)?)
    }

    fn open_load(&mut self, plan: &LoadPlan) -> Result<Load, Fault>
        requires { HasOwnIds plan.now }
        ensures grew { DockGrew (seen_of self.old) (seen_of self.new) }
        ensures events { OpenAdds result plan.now (seen_of self.old).face.moment (dock_events (seen_of self.old)) (dock_events (seen_of self.new)) }
        ensures face { OpenFace result plan.now (seen_of self.old).face (seen_of self.new).face }
        ensures side_marks { IfOk result (λ _. IfSome (tables (seen_of self.new)) (λ store. (seen_of self.new).face.side_marks ≡ side_marks_of store)) }
        ensures rows_read { (seen_of self.new).rows_read ≡ (seen_of self.old).rows_read }
        ensures faults { RoseIf (IsErrOf result Fault.Failed) (seen_of self.old).counts.store_faults (seen_of self.new).counts.store_faults }
        ensures counts { (seen_of self.new).counts ≡ record ((seen_of self.old).counts) { store_faults = (seen_of self.new).counts.store_faults } }
        ensures calls { self.new.calls ≡ call_made self.old.calls }
        ensures passes { OnOk result (¬ Contains self.old.calls.fails (next_call self.old.calls)) }
        ensures failed { IsErrOf result Fault.Failed → FailsOnly self.old self.new }
    {
        if self.calls.is_failing() {
            return Err(self.fail_store());
        }
        let load = self.store.open(self.alloc, plan, self.moment, self.tally)?;
        self.poll = PollKind::Other;
        Ok(load)
    }

    #[tactic(auto, using(crate::proofs::DockLemmas::grew_same, crate::proofs::DockLemmas::grew_event, crate::proofs::DockLemmas::events_added, crate::proofs::DockLemmas::marks_at_commit, crate::proofs::MoveLemmas::moves_same, crate::proofs::MoveLemmas::moves_still))]
    fn commit(&mut self, stream: StreamNo, rows: &RawRowList) -> Result<(), Fault>
        requires { stream < length (seen_of self.old).face.side_marks }
        ensures grew { DockGrew (seen_of self.old) (seen_of self.new) }
        ensures moves { DockMoves (seen_of self.old) (seen_of self.new) }
        ensures events { AddsOn result (Event.Committed stream rows.now) (dock_events (seen_of self.old)) (dock_events (seen_of self.new)) }
        ensures face { (seen_of self.new).face ≡ (seen_of self.old).face }
        ensures rows_read { (seen_of self.new).rows_read ≡ (seen_of self.old).rows_read }
        ensures faults { RoseIf (IsErrOf result Fault.Failed) (seen_of self.old).counts.store_faults (seen_of self.new).counts.store_faults }
        ensures counts { (seen_of self.new).counts ≡ record ((seen_of self.old).counts) { store_faults = (seen_of self.new).counts.store_faults } }
        ensures calls { self.new.calls ≡ call_made self.old.calls }
        ensures passes { OnOk result (¬ Contains self.old.calls.fails (next_call self.old.calls)) }
        ensures failed { IsErrOf result Fault.Failed → FailsOnly self.old self.new }
    {
        if self.calls.is_failing() {
            return Err(self.fail_store());
        }
        Ok(self.store.commit(self.alloc, stream, rows, self.tally)?)
    }

    #[tactic(auto, using(crate::proofs::DockLemmas::grew_same, crate::proofs::DockLemmas::grew_event, crate::proofs::DockLemmas::events_added, crate::proofs::DockLemmas::marks_at_plain, crate::proofs::MoveLemmas::moves_same, crate::proofs::MoveLemmas::moves_emitted))]
    fn emit(&mut self, line: &[u8]) -> Result<(), Fault>
        ensures grew { DockGrew (seen_of self.old) (seen_of self.new) }
        ensures moves { DockMoves (seen_of self.old) (seen_of self.new) }
        ensures events { AddsOn result (Event.Emitted line.now) (dock_events (seen_of self.old)) (dock_events (seen_of self.new)) }
        ensures face { (seen_of self.new).face ≡ record ((seen_of self.old).face) { hand = (seen_of self.new).face.hand } }
        ensures hand { HandEmits result line.now (seen_of self.old).face.hand (seen_of self.new).face.hand }
        ensures rows_read { (seen_of self.new).rows_read ≡ (seen_of self.old).rows_read }
        ensures faults { RoseIf (IsErrOf result Fault.Failed) (seen_of self.old).counts.write_faults (seen_of self.new).counts.write_faults }
        ensures counts { (seen_of self.new).counts ≡ record ((seen_of self.old).counts) { write_faults = (seen_of self.new).counts.write_faults } }
        ensures calls { self.new.calls ≡ call_made self.old.calls }
        ensures passes { OnOk result (¬ Contains self.old.calls.fails (next_call self.old.calls)) }
        ensures failed { IsErrOf result Fault.Failed → FailsOnly self.old self.new }
    {
        if self.calls.is_failing() {
            return Err(self.fail_write());
        }
        Ok(self.keep_line(line)?)
    }

    #[tactic(auto, using(crate::proofs::DockLemmas::grew_same))]
    fn read_unmerged(
        &mut self,
        alloc: Global,
        stream: StreamNo,
        most: u32,
    ) -> Result<Unmerged, Fault>
        requires known { stream < length (seen_of self.old).face.side_marks }
        requires some { 0 < most }
        ensures grew { DockGrew (seen_of self.old) (seen_of self.new) }
        ensures is_page { IfOk result (λ page. IsPage (slice_index (seen_of self.old).face.side_marks stream) most page) }
        ensures page { IfOk result (λ page. IfSome (tables (seen_of self.old)) (λ store. page ≡ page_of store stream most)) }
        ensures events { dock_events (seen_of self.new) ≡ dock_events (seen_of self.old) }
        ensures face { (seen_of self.new).face ≡ (seen_of self.old).face }
        ensures rows_read { PageReads result (seen_of self.old).rows_read (seen_of self.new).rows_read }
        ensures faults { RoseIf (IsErrOf result Fault.Failed) (seen_of self.old).counts.store_faults (seen_of self.new).counts.store_faults }
        ensures counts { (seen_of self.new).counts ≡ record ((seen_of self.old).counts) { store_faults = (seen_of self.new).counts.store_faults } }
        ensures calls { self.new.calls ≡ call_made self.old.calls }
        ensures passes { OnOk result (¬ Contains self.old.calls.fails (next_call self.old.calls)) }
        ensures failed { IsErrOf result Fault.Failed → FailsOnly self.old self.new }
    {
        if self.calls.is_failing() {
            return Err(self.fail_store());
        }
        let page = self.store.page(alloc, stream, most as usize)?;
        self.rows_read = self.rows_read.saturating_add(page.rows.len() as u64);
        Ok(page)
    }

    #[tactic(auto, using(crate::proofs::DockLemmas::grew_same))]
    fn read_winner(
        &mut self,
        alloc: Global,
        stream: StreamNo,
        key: &[u8],
    ) -> Result<Option<RawRow>, Fault>
        requires { stream < length (seen_of self.old).face.side_marks }
        ensures grew { DockGrew (seen_of self.old) (seen_of self.new) }
        ensures winner { IfOk result (λ winner. IfSome (tables (seen_of self.old)) (λ store. winner ≡ winner_of store stream key.now)) }
        ensures events { dock_events (seen_of self.new) ≡ dock_events (seen_of self.old) }
        ensures face { (seen_of self.new).face ≡ (seen_of self.old).face }
        ensures rows_read { ReadAtMost 1 (seen_of self.old).rows_read (seen_of self.new).rows_read }
        ensures faults { RoseIf (IsErrOf result Fault.Failed) (seen_of self.old).counts.store_faults (seen_of self.new).counts.store_faults }
        ensures counts { (seen_of self.new).counts ≡ record ((seen_of self.old).counts) { store_faults = (seen_of self.new).counts.store_faults } }
        ensures calls { self.new.calls ≡ call_made self.old.calls }
        ensures passes { OnOk result (¬ Contains self.old.calls.fails (next_call self.old.calls)) }
        ensures failed { IsErrOf result Fault.Failed → FailsOnly self.old self.new }
    {
        if self.calls.is_failing() {
            return Err(self.fail_store());
        }
        let winner = self.store.winner(alloc, stream, key)?;
        if winner.is_some() {
            self.rows_read = self.rows_read.saturating_add(1);
        }
        Ok(winner)
    }

    #[tactic(auto, using(crate::proofs::DockLemmas::grew_same, crate::proofs::DockLemmas::grew_event, crate::proofs::DockLemmas::events_added, crate::proofs::MoveLemmas::moves_same, crate::proofs::MoveLemmas::moves_still))]
    fn merge(&mut self, stream: StreamNo, winners: &RawRowList, mark: u64) -> Result<(), Fault>
        requires known { stream < length (seen_of self.old).face.side_marks }
        requires place { IsPlace mark }
        ensures grew { DockGrew (seen_of self.old) (seen_of self.new) }
        ensures moves { DockMoves (seen_of self.old) (seen_of self.new) }
        ensures events { AddsOn result (Event.Merged stream winners.now mark) (dock_events (seen_of self.old)) (dock_events (seen_of self.new)) }
        ensures face { (seen_of self.new).face ≡ merged_face result stream mark (seen_of self.old).face }
        ensures rows_read { (seen_of self.new).rows_read ≡ (seen_of self.old).rows_read }
        ensures faults { RoseIf (IsErrOf result Fault.Failed) (seen_of self.old).counts.store_faults (seen_of self.new).counts.store_faults }
        ensures counts { (seen_of self.new).counts ≡ record ((seen_of self.old).counts) { store_faults = (seen_of self.new).counts.store_faults } }
        ensures calls { self.new.calls ≡ call_made self.old.calls }
        ensures passes { OnOk result (¬ Contains self.old.calls.fails (next_call self.old.calls)) }
        ensures failed { IsErrOf result Fault.Failed → FailsOnly self.old self.new }
    {
        if self.calls.is_failing() {
            return Err(self.fail_store());
        }
        Ok(
            self.store
                .merge(self.alloc, stream, winners, mark, self.tally)?,
        )
    }

    #[tactic(auto, using(crate::proofs::DockLemmas::grew_same, crate::proofs::DockLemmas::grew_event, crate::proofs::DockLemmas::events_added, crate::proofs::MoveLemmas::moves_same, crate::proofs::MoveLemmas::moves_still))]
    fn show(&mut self, stream: StreamNo) -> Result<(), Fault>
        requires { stream < length (seen_of self.old).face.side_marks }
        ensures grew { DockGrew (seen_of self.old) (seen_of self.new) }
        ensures moves { DockMoves (seen_of self.old) (seen_of self.new) }
        ensures events { ShowAdds result stream (dock_events (seen_of self.old)) (dock_events (seen_of self.new)) }
        ensures face { (seen_of self.new).face ≡ (seen_of self.old).face }
        ensures rows_read { (seen_of self.new).rows_read ≡ (seen_of self.old).rows_read }
        ensures faults { RoseIf (IsErrOf result Fault.Failed) (seen_of self.old).counts.store_faults (seen_of self.new).counts.store_faults }
        ensures counts { (seen_of self.new).counts ≡ record ((seen_of self.old).counts) { store_faults = (seen_of self.new).counts.store_faults } }
        ensures calls { self.new.calls ≡ call_made self.old.calls }
        ensures passes { OnOk result (¬ Contains self.old.calls.fails (next_call self.old.calls)) }
        ensures failed { IsErrOf result Fault.Failed → FailsOnly self.old self.new }
    {
        if self.calls.is_failing() {
            return Err(self.fail_store());
        }
        Ok(self.store.show(self.alloc, stream, self.tally)?)
    }

    fn wait(&mut self) {}

    fn counts(&self) -> DockCounts {
        DockCounts {
            read_faults: self.tally.read_faults,
            store_faults: self.tally.store_faults,
            write_faults: self.tally.write_faults,
            quiet: self.tally.quiet,
        }
    }
}

impl HandDock for MemDock {
    ghost use Rattle.std.specs.Prelude.{refl};

    ghost in_memory = { λ dock. refl };

    fn push_input(&mut self, line: Bytes) -> Result<(), NoMemory> {
        self.waiting.push_back(line)?;
        Ok(())
    }

    fn close_input(&mut self, torn: Option<Bytes>) {
        self.torn = torn.filter(|piece| is_line(piece.as_slice()));
        self.is_open = false;
    }

    fn take_output(&mut self) -> Option<Bytes> {
        self.output.pop_front()
    }

    fn waiting(&self) -> u64 {
        self.waiting.len() as u64
    }

    fn reopen(&mut self) {
        self.waiting.clear();
        self.output.clear();
        self.torn = None;
        self.is_open = true;
    }
}
