// The parts of a book, and what a call on the input does with them.
ghost use Rattle.std.specs.Prelude.{◌≡◌, ◌≢◌, ◌<◌, true, length, None, Some, IsSome};
ghost use Rattle.airbyte_message.specs.Lanes.{all, lane_of};
ghost use Rattle.airbyte_message.specs.declared.message.StateKind.TheVariants.{Legacy};
ghost use Rattle.book_rules.specs.Accepts.{AcceptAnswer, Breaks, GoesOn, Refuses, Takes, TakesCounted, TakesLine, TakesNext, TakesRecord, TakesStateBy, is_other};
ghost use Rattle.book_rules.specs.Holds.{CanTake, IsLaneBelow, IsReady};
ghost use Rattle.book_rules.specs.Views.{BookView, ids};
ghost use Rattle.book_parts.specs.Steps.{IsFoundFor, Knows, PutsState, TakesHeard};

use crate::heard::{Heard, hear};
use crate::opened::Opened;
use crate::release::{release, stop_of};
use airbyte_message::{MessageReader, StateKind, StateMsg, StreamStatus};
use basics::{Bytes, NoMemory, StreamNo};
use book_queue::BookQueue;
use book_rules::{Accepted, Lanes, Tally};
use outside::{Dock, InputKind, Limits, Polled, Status};
use state_gate::{Gate, Lane};
use std::alloc::Global;
use std::marker::Model;

// A load has fewer lines.
const MOST_LINES: u64 = 4_294_967_296;

/// The parts of a book. They keep no invariant of their own: a call says what it asks of them.
#[derive(Drop)]
pub struct Parts<D: Dock> {
    pub(crate) alloc: Global,
    pub(crate) dock: D,
    pub(crate) opened: Opened,
    pub(crate) gate: Gate,
    pub(crate) queue: BookQueue,
    pub(crate) reader: MessageReader,
    pub(crate) tally: Tally,
    pub(crate) statuses: Vec<Option<StreamStatus>>,
    pub(crate) shown: Vec<bool>,
    pub(crate) limits: Limits,
}

impl<D: Dock> Model for Parts<D> {
    ghost use Rattle.book_rules.specs.Views.{BookView};

    ghost Value = { BookView };

    ghost view = { λ parts. record { seen = D.seen parts.dock; catalog = parts.opened.catalog; opening = parts.opened.opening; gate = parts.gate; queue = parts.queue; tally = parts.tally; statuses = parts.statuses.items; shown = parts.shown.items; limits = parts.limits } };
}

impl<D: Dock + Drop> Parts<D> {
    // It broke by this.
    fn breaks(&mut self, stop: Status) -> Accepted
        ensures { Breaks stop result self.old self.new }
    {
        self.tally.broken = Some(stop);
        Accepted::Broken(stop)
    }

    /// Takes a line, or tries again the record that waits for room.
    pub fn accept(&mut self) -> Accepted
        requires { self.old.tally.broken ≡ None → IsReady self.old }
        ensures { AcceptAnswer result self.old self.new }
    {
        if let Some(stop) = self.tally.broken {
            return Accepted::Broken(stop);
        }
        if self.tally.is_ended {
            return Accepted::End;
        }
        match self.gate.reserve() {
            Ok(()) => self.go_on(),
            Err(NoMemory) => self.breaks(Status::NoMemory),
        }
    }

    // Takes a line, where there is room in the gate.
    fn go_on(&mut self) -> Accepted
        requires { CanTake self.old }
        ensures { GoesOn self.old.queue.parked result self.old self.new }
    {
        if self.queue.is_parked() {
            self.unpark()
        } else {
            self.poll()
        }
    }

    // Tries again the record that waits for room.
    fn unpark(&mut self) -> Accepted
        requires { IsSome self.old.queue.parked }
        ensures { GoesOn self.old.queue.parked result self.old self.new }
    {
        if self.queue.unpark() {
            Accepted::Took
        } else {
            Accepted::Full
        }
    }

    // Polls the input.
    fn poll(&mut self) -> Accepted
        requires can { CanTake self.old }
        requires none { self.old.queue.parked ≡ None }
        ensures { TakesNext result self.old self.new }
    {
        let given = self.dock.poll_line();
        self.take(given)
    }

    // Takes what a poll gave.
    fn take(&mut self, given: Polled) -> Accepted
        requires can { CanTake self.old }
        requires none { self.old.queue.parked ≡ None }
        ensures { Takes given result self.old self.new }
    {
        match given {
            Polled::Line(line) => self.take_line(InputKind::BadLine, line),
            Polled::Torn(line) => self.take_line(InputKind::TornTail, line),
            Polled::TooLong => self.breaks(Status::BadInput {
                kind: InputKind::TooLong,
                line: self.tally.lines + 1,
            }),
            Polled::NotYet => Accepted::NotYet,
            Polled::End => {
                self.queue.seal_all();
                self.tally.is_ended = true;
                Accepted::End
            }
            Polled::Failed => self.breaks(Status::ReadFault),
            Polled::NoMemory => self.breaks(Status::NoMemory),
        }
    }

    // Refuses the line that was taken last.
    fn refuses(&mut self, kind: InputKind) -> Accepted
        ensures { Refuses kind result self.old self.new }
    {
        self.breaks(Status::BadInput {
            kind,
            line: self.tally.lines,
        })
    }

    // Takes a line.
    fn take_line(&mut self, kind: InputKind, line: Bytes) -> Accepted
        requires can { CanTake self.old }
        requires none { self.old.queue.parked ≡ None }
        ensures { TakesLine kind line result self.old self.new }
    {
        self.tally.lines += 1;
        if self.tally.lines >= MOST_LINES {
            return self.breaks(Status::TooManyLines);
        }
        self.take_counted(kind, line)
    }

    // Takes a line that was counted.
    fn take_counted(&mut self, kind: InputKind, line: Bytes) -> Accepted
        requires can { CanTake self.old }
        requires none { self.old.queue.parked ≡ None }
        ensures { TakesCounted true kind line result self.old self.new }
    {
        match hear(
            self.alloc,
            &mut self.reader,
            self.opened.catalog(),
            line.as_slice(),
        ) {
            Ok(heard) => self.take_heard(kind, line, heard),
            Err(NoMemory) => self.breaks(Status::NoMemory),
        }
    }

    // Takes what a line says.
    fn take_heard(&mut self, kind: InputKind, line: Bytes, heard: Heard) -> Accepted
        requires can { CanTake self.old }
        requires none { self.old.queue.parked ≡ None }
        requires known { Knows (length (ids self.old)) heard }
        ensures { TakesHeard heard kind line result self.old self.new }
    {
        match heard {
            Heard::Nothing => self.refuses(kind),
            Heard::Record(Some(stream)) => self.take_record(stream, line),
            Heard::Record(None) => self.refuses(InputKind::UnknownStream),
            Heard::State(state) => self.take_state(state),
            Heard::Status(Some(stream), status) => {
                self.statuses[stream as usize] = Some(status);
                Accepted::Took
            }
            Heard::Status(None, _) => Accepted::Took,
            Heard::Other => Accepted::Took,
        }
    }

    // Takes a record.
    fn take_record(&mut self, stream: StreamNo, line: Bytes) -> Accepted
        requires can { CanTake self.old }
        requires none { self.old.queue.parked ≡ None }
        requires stream { stream < length (ids self.old) }
        ensures { TakesRecord stream line result self.old self.new }
    {
        let seq = self.gate.next();
        self.gate.accept_record(stream, seq);
        if self.queue.push(stream, seq, line) {
            Accepted::Took
        } else {
            Accepted::Full
        }
    }

    // Takes a state.
    fn take_state(&mut self, state: StateMsg) -> Accepted
        requires can { CanTake self.old }
        ensures { TakesStateBy (lane_of state.kind) state result self.old self.new }
    {
        match state.kind() {
            StateKind::Legacy => self.refuses(InputKind::Legacy),
            StateKind::Global { .. } => self.take_global(state),
            StateKind::Stream { id, .. } => {
                let found = self.opened.catalog().find(id);
                self.take_own(found, state)
            }
        }
    }

    // Takes a state of all streams.
    fn take_global(&mut self, state: StateMsg) -> Accepted
        requires can { CanTake self.old }
        requires kind { lane_of state.kind ≡ Some all }
        ensures { TakesStateBy (Some all) state result self.old self.new }
    {
        if is_mixed(self.tally.lanes, Lanes::All) {
            return self.refuses(InputKind::Mixed);
        }
        self.queue.seal_all();
        self.release_with(Lane::Global, state, Lanes::All)
    }

    // Takes a state of the stream with this number.
    fn take_own(&mut self, found: Option<StreamNo>, state: StateMsg) -> Accepted
        requires can { CanTake self.old }
        requires kind { IsFoundFor (lane_of state.kind) self.old.catalog found }
        ensures { TakesStateBy (lane_of state.kind) state result self.old self.new }
    {
        if is_mixed(self.tally.lanes, Lanes::Streams) {
            return self.refuses(InputKind::Mixed);
        }
        match found {
            Some(stream) => {
                self.queue.seal(stream);
                self.release_with(Lane::Stream(stream), state, Lanes::Streams)
            }
            None => self.refuses(InputKind::UnknownStream),
        }
    }

    // Puts a state into the gate, and releases all that may go.
    fn release_with(&mut self, lane: Lane, state: StateMsg, kind: Lanes) -> Accepted
        requires can { CanTake self.old }
        requires lane { IsLaneBelow (length (ids self.old)) lane }
        requires state { state.kind ≢ Legacy }
        ensures { PutsState lane state kind result self.old self.new }
    {
        self.gate.accept_state(lane, state);
        self.tally.lanes = Some(kind);
        match release(
            self.alloc,
            &mut self.dock,
            &mut self.gate,
            &mut self.tally.emitted,
        ) {
            Ok(()) => Accepted::Took,
            Err(fault) => self.breaks(stop_of(fault)),
        }
    }
}

// Whether states of this kind may not stand beside those of the load.
fn is_mixed(known: Option<Lanes>, kind: Lanes) -> bool
    ensures { result ≡ is_other known kind }
{
    match known {
        Some(known) => known != kind,
        None => false,
    }
}
