// One attempt in one process, which keeps all its events.
ghost use Rattle.std.specs.Prelude.{◌≡◌, ◌≢◌, ℕ, [], ◌∷◌, ◌++◌, length, drop, IfOk, OnOk, OnErr};
ghost use Rattle.text_lines.specs.Lines.{lines_of};
ghost use Rattle.airbyte_message.specs.Messages.{IsStateLine};
ghost use Rattle.worker_run.specs.World.{begun, record_events as record_events_of};

use crate::events::{closing_events, opening_events, other_events, record_events, state_events};
use crate::judge::Judged;
use airbyte_message::{MessageReader, RecordMsg, StateMsg, echo_of};
use outside::{Bytes, Event, EventList, Name, NoMemory};
use std::alloc::Global;
use std::marker::Model;
use text_lines::next_line;

/// What a step did with the next line.
#[derive(Debug, Drop)]
pub enum Step {
    /// A record was committed.
    Record,
    /// This state object was saved.
    Saved(Bytes),
    /// A line was passed over: it is no message, or one that carries no data. This is to be said of it, if anything.
    Other(Option<Bytes>),
    /// No line is left.
    Done,
    /// The line with this number, from 1, is not taken, and the world is as before.
    Unbuilt(u64),
}

/// A file of messages that goes line by line into one append table. It keeps each event, in order.
#[derive(Drop)]
pub struct PlainWorld {
    alloc: Global,
    // It keeps its lists from line to line.
    reader: MessageReader,
    text: Bytes,
    // The place behind the last line that was taken.
    at: usize,
    stream: Name,
    // How many lines were taken, and how many of them are records: all, and those since the last state.
    number: u64,
    records: u64,
    since: u64,
    events: EventList,
    is_over: bool,
}

impl Model for PlainWorld {
    ghost use Rattle.std.specs.Prelude.{length, drop};
    ghost use Rattle.text_lines.specs.Lines.{lines_of};
    ghost use Rattle.worker_run.specs.World.{World};
    ghost use Rattle.worker_run.specs.Bounds.{IsBounded};
    ghost use Rattle.worker_run.specs.Reached.{IsReached};

    ghost Value = { World };

    ghost view = { λ w. record { stream = w.stream; lines = lines_of (drop w.at w.text); number = w.number; counted = record { records = w.records; since = w.since }; events = w.events; is_over = w.is_over } };

    ghost invariant = { λ w. IsBounded w.at w.number w.records w.since (length w.text) × IsReached (record { stream = w.stream; lines = lines_of (drop w.at w.text); number = w.number; counted = record { records = w.records; since = w.since }; events = w.events; is_over = w.is_over }) };
}

// Puts the events of a record behind the others.
fn push_record(
    alloc: Global,
    events: &mut EventList,
    line: &[u8],
    number: u64,
    content: RecordMsg,
) -> Result<(), NoMemory>
    ensures ok { OnOk result (events.new ≡ events.old ++ record_events_of line.now number content) }
    ensures err { OnErr result (events.new ≡ events.old) }
{
    let more = record_events(alloc, line, number, content)?;
    events.append(more)
}

// Puts the event of a line that is passed over behind the others.
fn push_other(alloc: Global, events: &mut EventList, line: &[u8]) -> Result<(), NoMemory>
    ensures ok { OnOk result (events.new ≡ events.old ++ Event.ReadLine line.now ∷ []) }
    ensures err { OnErr result (events.new ≡ events.old) }
{
    let more = other_events(alloc, line)?;
    events.append(more)
}

impl PlainWorld {
    ghost use Rattle.worker_run.specs.Steps.{Steps, AddsState};
    ghost use Rattle.worker_run.specs.SafeSync.{IsSafeSync};
    ghost use Rattle.worker_run.specs.Output.{committed_lines};
    ghost use Rattle.worker_run.specs.TakenLines.{KindIsOf};

    /// A world that has taken no line: the load is opened, the empty store saved and the attempt started.
    pub fn new(alloc: Global, text: Bytes, stream: Name) -> Result<Self, NoMemory>
        ensures begun { IfOk result (λ world. world ≡ begun text stream) }
        ensures safe { IfOk result (λ world. IsSafeSync world.stream world.events) }
    {
        let events = EventList::from_vec(opening_events(alloc, &stream)?);
        Ok(PlainWorld {
            alloc,
            reader: MessageReader::new(alloc),
            text,
            at: 0,
            stream,
            number: 0,
            records: 0,
            since: 0,
            events,
            is_over: false,
        })
    }

    /// What happened so far, in order.
    pub fn events(&self) -> &EventList
        ensures events { result.now ≡ self.now.events }
        ensures safe { IsSafeSync self.now.stream self.now.events }
    {
        &self.events
    }

    /// How many records were committed.
    pub fn records(&self) -> u64
        ensures counted { result ≡ self.now.counted.records }
        ensures rows { result ≡ length (committed_lines self.now.events) }
    {
        self.records
    }

    /// The name of the stream.
    pub fn stream(&self) -> &Name
        ensures { result.now ≡ self.now.stream }
    {
        &self.stream
    }

    // Puts the events of a state behind the others, and gives its object.
    fn push_state(
        alloc: Global,
        events: &mut EventList,
        stream: &Name,
        line: &[u8],
        state: StateMsg,
        since: u64,
    ) -> Result<Bytes, NoMemory>
        requires state { IsStateLine line.now state }
        requires stream { KindIsOf stream.now state.kind }
        ensures object { IfOk result (λ object. object ≡ state.object) }
        ensures ok { OnOk result (AddsState stream.now line.now state.object since events.old events.new) }
        ensures err { OnErr result (events.new ≡ events.old) }
    {
        let echo = echo_of(alloc, &state, since)?;
        let more = state_events(alloc, line, stream, &state, echo)?;
        events.append(more)?;
        Ok(state.into_object().into_bytes())
    }

    // Takes the next line.
    fn advance(&mut self) -> Result<Step, NoMemory>
        ensures { Steps self.old result self.new }
    {
        let Some(place) = next_line(self.text.as_slice(), self.at) else {
            if !self.is_over {
                self.events.append(closing_events(self.alloc)?)?;
                self.is_over = true;
            }
            return Ok(Step::Done);
        };
        let line = &self.text.as_slice()[place.start..place.end];
        match Judged::of(self.alloc, &mut self.reader, line, &self.stream, self.since)? {
            Judged::Record(content) => {
                push_record(self.alloc, &mut self.events, line, self.records, content)?;
                self.at = place.end;
                self.number += 1;
                self.records += 1;
                self.since += 1;
                Ok(Step::Record)
            }
            Judged::State(state) => {
                let object = PlainWorld::push_state(
                    self.alloc,
                    &mut self.events,
                    &self.stream,
                    line,
                    state,
                    self.since,
                )?;
                self.at = place.end;
                self.number += 1;
                self.since = 0;
                Ok(Step::Saved(object))
            }
            Judged::Other(said) => {
                push_other(self.alloc, &mut self.events, line)?;
                self.at = place.end;
                self.number += 1;
                Ok(Step::Other(said))
            }
            Judged::Unbuilt => Ok(Step::Unbuilt(self.number + 1)),
        }
    }
    /// Takes the next line. A line that is not taken leaves the world as it was, and so does want of memory; at the end
    /// of the text the attempt ends, once.
    pub fn step(&mut self) -> Result<Step, NoMemory>
        ensures steps { Steps self.old result self.new }
        ensures safe { IsSafeSync self.new.stream self.new.events }
    {
        let step = self.advance();
        let _events = self.events();
        step
    }
}
