// The store of a dock in memory: its trace, and the tables that the trace makes.
ghost use Rattle.std.specs.Prelude.{◌≡◌, ◌<◌, ◌+◌, ◌∷◌, ◌++◌, [], map, length, slice_set, slice_index, IfOk, OnOk, OnErr};
ghost use Rattle.outside.specs.Tables.{tables_of, marks_in, page_of, winner_of, side_marks_of, shown_event};
ghost use Rattle.outside.specs.Dock.{event_of, HasOwnIds, HasStreams, IsPage, IsPlace};
ghost use Rattle.outside.specs.declared.event.Event.{Event};
ghost use Rattle.outside_mem.specs.MemDock.{told, IsPlain, trace_tables, ended};

use crate::dock_trace::DockTrace;
use outside::{
    Copies, DockTally, Event, EventList, Load, LoadPlan, MarksList, NoMemory, RawRow, RawRowList,
    StreamIdList, StreamNo, Tables, Unmerged,
};
use std::alloc::Global;
use std::marker::Model;

/// A store, which contracts see as its trace: the tables that are kept beside it are those that the trace makes.
///
/// A change makes room for its event first. Where the tables then cannot be changed, the event is dropped again.
#[derive(Drop)]
pub struct MemStore {
    trace: DockTrace,
    tables: Tables,
    input_over: bool,
}

impl Model for MemStore {
    ghost use Rattle.std.specs.Prelude.{List, map};
    ghost use Rattle.outside.specs.Dock.{event_of};
    ghost use Rattle.raw_tables.specs.Store.{IsStore};
    ghost use Rattle.outside_mem.specs.MemDock.{ToldEvent};

    ghost Value = { List ToldEvent };

    ghost view = { λ store. store.trace };

    ghost invariant = { λ store. IsStore store.tables store.input_over (map event_of store.trace) };
}

impl MemStore {
    /// The store in which nothing happened. It takes no memory until it grows.
    pub fn new(alloc: Global) -> Self
        ensures { result ≡ [] }
    {
        MemStore {
            trace: DockTrace::new(alloc),
            tables: raw_tables::empty_tables(alloc),
            input_over: true,
        }
    }

    /// The events in order.
    pub fn events(&self) -> &EventList
        ensures { result.now ≡ map event_of self.now }
    {
        self.trace.events()
    }

    /// The tables that the events make.
    pub fn tables(&self) -> &Tables
        ensures { result.now ≡ trace_tables self.now }
    {
        &self.tables
    }

    /// Adds an event that changes no table.
    #[tactic(auto, using(crate::proofs::StoreLemmas::store_plain))]
    pub fn note(&mut self, event: Event, counts: DockTally) -> Result<(), NoMemory>
        requires { IsPlain event }
        ensures ok { OnOk result (self.new ≡ self.old ++ told event counts ∷ []) }
        ensures err { OnErr result (self.new ≡ self.old) }
    {
        self.trace.push(event, counts)
    }

    /// Adds the end of the input, where it is the first of the load.
    #[tactic(auto, using(crate::proofs::StoreLemmas::store_ended))]
    pub fn end_input(&mut self, counts: DockTally) -> Result<(), NoMemory>
        ensures ok { OnOk result (self.new ≡ ended counts self.old) }
        ensures err { OnErr result (self.new ≡ self.old) }
    {
        if !self.input_over {
            self.trace.push(Event::TookEnd, counts)?;
            self.input_over = true;
        }
        Ok(())
    }

    /// Opens a load, whose number is one above that of the last.
    #[tactic(auto, using(crate::proofs::StoreLemmas::store_opened, crate::proofs::TraceLemmas::take_back))]
    pub fn open(
        &mut self,
        alloc: Global,
        plan: &LoadPlan,
        moment: u64,
        counts: DockTally,
    ) -> Result<Load, NoMemory>
        requires { HasOwnIds plan.now }
        ensures ok { OnOk result (self.new ≡ self.old ++ told (Event.Opened ((trace_tables self.old).load + 1) moment plan.now) counts ∷ []) }
        ensures streams { OnOk result (HasStreams plan.now (side_marks_of (trace_tables self.new))) }
        ensures load { IfOk result (λ load. load ≡ record { load = (trace_tables self.old).load + 1; moment = moment }) }
        ensures err { OnErr result (self.new ≡ self.old) }
    {
        let load = match self.tables.load.checked_add(1) {
            Some(load) => load,
            None => return Err(NoMemory),
        };
        let event = Event::Opened {
            load,
            moment,
            plan: plan.copy(alloc)?,
        };
        let before = self.trace.len();
        self.trace.push(event, counts)?;
        match raw_tables::tables_of(alloc, self.trace.events()) {
            Ok(tables) => {
                self.tables = tables;
                self.input_over = false;
                Ok(Load { load, moment })
            }
            Err(fault) => {
                self.trace.truncate(before);
                Err(fault)
            }
        }
    }

    /// Commits rows of a stream.
    #[tactic(auto, using(crate::proofs::StoreLemmas::store_committed, crate::proofs::TraceLemmas::take_back))]
    pub fn commit(
        &mut self,
        alloc: Global,
        stream: StreamNo,
        rows: &RawRowList,
        counts: DockTally,
    ) -> Result<(), NoMemory>
        ensures ok { OnOk result (self.new ≡ self.old ++ told (Event.Committed stream rows.now) counts ∷ []) }
        ensures err { OnErr result (self.new ≡ self.old) }
    {
        let event = Event::Committed {
            stream,
            rows: rows.copy(alloc)?,
        };
        let before = self.trace.len();
        self.trace.push(event, counts)?;
        match raw_tables::commit(alloc, &mut self.tables, stream, rows) {
            Ok(()) => Ok(()),
            Err(fault) => {
                self.trace.truncate(before);
                Err(fault)
            }
        }
    }

    /// Merges winners of a stream.
    #[tactic(auto, using(crate::proofs::StoreLemmas::store_merged, crate::proofs::TraceLemmas::take_back))]
    pub fn merge(
        &mut self,
        alloc: Global,
        stream: StreamNo,
        winners: &RawRowList,
        mark: u64,
        counts: DockTally,
    ) -> Result<(), NoMemory>
        requires { IsPlace mark }
        ensures ok { OnOk result (self.new ≡ self.old ++ told (Event.Merged stream winners.now mark) counts ∷ []) }
        ensures marks { OnOk result (stream < length (side_marks_of (trace_tables self.old)) → side_marks_of (trace_tables self.new) ≡ slice_set (side_marks_of (trace_tables self.old)) stream mark) }
        ensures err { OnErr result (self.new ≡ self.old) }
    {
        let event = Event::Merged {
            stream,
            winners: winners.copy(alloc)?,
            mark,
        };
        let merging = winners.copy(alloc)?;
        let before = self.trace.len();
        self.trace.push(event, counts)?;
        match raw_tables::merge(alloc, &mut self.tables, stream, merging, mark) {
            Ok(()) => Ok(()),
            Err(fault) => {
                self.trace.truncate(before);
                Err(fault)
            }
        }
    }

    /// Shows a stream of the load.
    #[tactic(auto, using(crate::proofs::StoreLemmas::store_showing, crate::proofs::TraceLemmas::take_back))]
    pub fn show(
        &mut self,
        alloc: Global,
        stream: StreamNo,
        counts: DockTally,
    ) -> Result<(), NoMemory>
        ensures ok { OnOk result (self.new ≡ self.old ++ told (shown_event (trace_tables self.old) stream) counts ∷ []) }
        ensures marks { OnOk result (stream < length (side_marks_of (trace_tables self.old)) → side_marks_of (trace_tables self.new) ≡ side_marks_of (trace_tables self.old)) }
        ensures err { OnErr result (self.new ≡ self.old) }
    {
        let event = raw_tables::showing(&self.tables, stream);
        let before = self.trace.len();
        self.trace.push(event, counts)?;
        match raw_tables::show(alloc, &mut self.tables, stream) {
            Ok(()) => Ok(()),
            Err(fault) => {
                self.trace.truncate(before);
                Err(fault)
            }
        }
    }

    /// The marks of these streams, in their order.
    pub fn marks(&self, alloc: Global, streams: &StreamIdList) -> Result<MarksList, NoMemory>
        ensures { IfOk result (λ marks. marks ≡ map (marks_in (trace_tables self.now)) streams.now) }
    {
        raw_tables::read_marks(alloc, &self.tables, streams.as_slice())
    }

    /// The next rows of a stream that are not merged.
    #[tactic(auto, using(crate::proofs::StoreLemmas::page_known, crate::proofs::StoreLemmas::store_rises))]
    pub fn page(&self, alloc: Global, stream: StreamNo, most: usize) -> Result<Unmerged, NoMemory>
        requires { 0 < most }
        ensures page { IfOk result (λ page. page ≡ page_of (trace_tables self.now) stream most) }
        ensures known { stream < length (side_marks_of (trace_tables self.now)) → IsPage (slice_index (side_marks_of (trace_tables self.now)) stream) most (page_of (trace_tables self.now) stream most) }
    {
        raw_tables::read_page(alloc, &self.tables, stream, most)
    }

    /// The winner of a key on the side of a stream.
    pub fn winner(
        &self,
        alloc: Global,
        stream: StreamNo,
        key: &[u8],
    ) -> Result<Option<RawRow>, NoMemory>
        ensures { IfOk result (λ winner. winner ≡ winner_of (trace_tables self.now) stream key.now) }
    {
        raw_tables::read_winner(alloc, &self.tables, stream, key)
    }
}
