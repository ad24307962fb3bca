// The events of a dock, each with the counts as they stood when it was added.
ghost use Rattle.std.specs.Prelude.{◌≡◌, ◌∷◌, ◌++◌, [], length, map, take, OnOk, OnErr};
ghost use Rattle.outside.specs.Dock.{event_of};
ghost use Rattle.outside_mem.specs.MemDock.{told};

use outside::{DockTally, Event, EventList, NoMemory, Sequence};
use std::alloc::Global;
use std::marker::Model;

/// Events with counts, which contracts see as one list.
#[derive(Debug, Drop)]
pub struct DockTrace {
    events: EventList,
    counts: Sequence<DockTally>,
}

impl Model for DockTrace {
    ghost use Rattle.std.specs.Prelude.{◌≡◌, List, length};
    ghost use Rattle.outside_mem.specs.MemDock.{ToldEvent, told_with};

    ghost Value = { List ToldEvent };

    ghost view = { λ trace. told_with trace.events trace.counts };

    ghost invariant = { λ trace. length trace.counts ≡ length trace.events };
}

impl DockTrace {
    /// The empty trace. It takes no memory until it grows.
    pub fn new(alloc: Global) -> Self
        ensures { result ≡ [] }
    {
        DockTrace {
            events: EventList::new(alloc),
            counts: Sequence::new(alloc),
        }
    }

    /// The events in order.
    #[tactic(auto, using(crate::proofs::TraceLemmas::events_are))]
    pub fn events(&self) -> &EventList
        ensures { result.now ≡ map event_of self.now }
    {
        &self.events
    }

    /// How many events there are.
    #[tactic(auto, using(crate::proofs::TraceLemmas::told_length))]
    pub fn len(&self) -> usize
        ensures { result ≡ length self.now }
    {
        self.events.len()
    }

    /// Adds an event with the counts.
    #[tactic(auto, using(crate::proofs::TraceLemmas::told_push, crate::proofs::TraceLemmas::take_back))]
    pub fn push(&mut self, event: Event, counts: DockTally) -> Result<(), NoMemory>
        ensures ok { OnOk result (self.new ≡ self.old ++ told event counts ∷ []) }
        ensures err { OnErr result (self.new ≡ self.old) }
    {
        let before = self.counts.len();
        self.counts.push(counts)?;
        if let Err(fault) = self.events.push(event) {
            self.counts.truncate(before);
            return Err(fault);
        }
        Ok(())
    }

    /// Drops all events but the first `count`.
    #[tactic(auto, using(crate::proofs::TraceLemmas::told_take, crate::proofs::TraceLemmas::length_both))]
    pub fn truncate(&mut self, count: usize)
        ensures { self.new ≡ take count self.old }
    {
        self.events.truncate(count);
        self.counts.truncate(count);
    }
}
