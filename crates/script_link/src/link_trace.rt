// The events of a link, each with the counts as they stood when it was added.
ghost use Rattle.std.specs.Prelude.{◌≡◌, ◌∷◌, ◌++◌, [], map, IfOk, OnOk, OnErr};
ghost use Rattle.std.specs.Option.{option_copied};
ghost use Rattle.outside.specs.Event.{got_over, got_over_after, read_over, read_over_after, saved_in as saved_text, stored};
ghost use Rattle.script_link.specs.Trace.{at_first, events_in, told, trace_of};

use basics::{Bytes, Copies, NoMemory, Sequence};
use outside::{Event, EventList, LinkCounts};
use std::alloc::Global;
use std::marker::Model;

pub const NOTHING_COUNTED: LinkCounts = LinkCounts {
    state_faults: 0,
    link_faults: 0,
    quiet_source: 0,
    quiet_dest: 0,
    quiet_codes: 0,
    waits: 0,
};

/// An event, with the counts as they stood when it was added.
#[derive(Debug, Drop)]
pub struct ToldAt {
    pub event: Event,
    pub counts: LinkCounts,
}

/// Events in the order in which they happened.
pub type ToldList = Sequence<ToldAt>;

/// A trace that grows, which contracts see as the list of what was told.
#[derive(Drop)]
pub struct LinkTrace {
    told: ToldList,
    is_read_over: bool,
    is_got_over: bool,
}

impl Model for LinkTrace {
    ghost use Rattle.std.specs.Prelude.{◌≡◌, List};
    ghost use Rattle.outside.specs.Event.{got_over, read_over};
    ghost use Rattle.script_link.specs.Trace.{ToldEvent, events_in, trace_of};

    ghost Value = { List ToldEvent };

    ghost view = { λ trace. trace_of trace.told };

    ghost invariant = { λ trace. (trace.is_read_over ≡ read_over (events_in (trace_of trace.told))) × (trace.is_got_over ≡ got_over (events_in (trace_of trace.told))) };
}

// Whether the source's output has ended in the attempt, behind an event.
fn read_over_behind(over: bool, event: &Event) -> bool
    ensures { result ≡ read_over_after over event.now }
{
    match event {
        Event::Started(_) => false,
        Event::ReadEnd => true,
        _ => over,
    }
}

// Whether the destination's output has ended in the attempt, behind an event.
fn got_over_behind(over: bool, event: &Event) -> bool
    ensures { result ≡ got_over_after over event.now }
{
    match event {
        Event::Started(_) => false,
        Event::GotEnd => true,
        _ => over,
    }
}

// The text of the state store that an event holds.
fn saved_in(event: &Event) -> Option<&Bytes>
    ensures { option_copied result ≡ saved_text event.now }
{
    match event {
        Event::Saved(text) => Some(text),
        _ => None,
    }
}

impl LinkTrace {
    /// The empty trace. It takes no memory until it grows.
    pub fn new(alloc: Global) -> Self
        ensures { result ≡ [] }
    {
        LinkTrace {
            told: ToldList::new(alloc),
            is_read_over: false,
            is_got_over: false,
        }
    }

    /// A trace of these events, at which nothing was counted.
    #[tactic(auto, using(crate::proofs::TraceLemmas::at_first_more))]
    pub fn of_events(alloc: Global, events: EventList) -> Result<Self, NoMemory>
        ensures { IfOk result (λ trace. trace ≡ map at_first events) }
    {
        let mut trace = LinkTrace::new(alloc);
        for event in events.into_vec() {
            trace.push(event, NOTHING_COUNTED)?;
        }
        Ok(trace)
    }

    /// What was told, in order.
    pub fn told(&self) -> &ToldList
        ensures { trace_of result.now ≡ self.now }
    {
        &self.told
    }

    /// Whether the source's output has ended in the attempt.
    pub fn is_read_over(&self) -> bool
        ensures { result ≡ read_over (events_in self.now) }
    {
        self.is_read_over
    }

    /// Whether the destination's output has ended in the attempt.
    pub fn is_got_over(&self) -> bool
        ensures { result ≡ got_over (events_in self.now) }
    {
        self.is_got_over
    }

    /// Adds an event with the counts.
    #[tactic(auto, using(crate::proofs::TraceLemmas::trace_more, crate::proofs::TraceLemmas::read_over_list, crate::proofs::TraceLemmas::got_over_list))]
    pub fn push(&mut self, event: Event, counts: LinkCounts) -> Result<(), NoMemory>
        ensures ok { OnOk result (self.new ≡ self.old ++ told event counts ∷ []) }
        ensures err { OnErr result (self.new ≡ self.old) }
    {
        let is_read_over = read_over_behind(self.is_read_over, &event);
        let is_got_over = got_over_behind(self.is_got_over, &event);
        self.told.push(ToldAt { event, counts })?;
        self.is_read_over = is_read_over;
        self.is_got_over = is_got_over;
        Ok(())
    }

    /// The text of the state store, empty where nothing was saved.
    pub fn stored(&self, alloc: Global) -> Result<Bytes, NoMemory>
        ensures { IfOk result (λ text. text ≡ stored (events_in self.now)) }
    {
        let mut last = None;
        for told in self.told.as_slice() {
            if let Some(text) = saved_in(&told.event) {
                last = Some(text);
            }
        }
        match last {
            Some(text) => text.copy(alloc),
            None => Ok(Bytes::new(alloc)),
        }
    }
}
