// The lines of one stream, one by one.
ghost use Rattle.std.specs.Prelude.{◌≡◌, ◌<◌, ◌++◌, List, length, slice_get, Some, OnOk};

use crate::heads::{put_state_end, record_end, record_start, state_start, status_line_of};
use airbyte_message::StreamStatus;
use basics::{Bytes, Copies, NoMemory, StreamId};
use std::alloc::Global;
use std::marker::Model;

/// The rows of a source's list, as its lines are made of them.
pub trait ListedRows {
    ghost use Rattle.source_lines.specs.Checkpoints.{Row};

    ghost rows: { Self → List Row };

    /// How many rows there are.
    fn len(&self) -> usize
        ensures { result ≡ length (rows self.now) };

    /// Puts the body of the row at a place, a JSON object.
    fn put_body(&self, place: usize, line: &mut Bytes) -> Result<(), NoMemory>
        requires { place < length (rows self.now) }
        ensures { OnOk result ((row : Row) → slice_get (rows self.now) place ≡ Some row → line.new ≡ line.old ++ row.body) };

    /// Puts the blob of a state that stands behind that row.
    fn put_blob(&self, place: usize, line: &mut Bytes) -> Result<(), NoMemory>
        requires { place < length (rows self.now) }
        ensures { OnOk result ((row : Row) → slice_get (rows self.now) place ≡ Some row → line.new ≡ line.old ++ row.blob) };

    /// Whether a state may stand behind that row, before the next.
    fn closes(&self, place: usize) -> bool
        requires { place < length (rows self.now) }
        ensures { (row : Row) → slice_get (rows self.now) place ≡ Some row → result ≡ row.closes };
}

/// How far a stream is.
#[derive(Clone, Copy, Debug, PartialEq, Eq)]
pub enum Stage {
    Unstarted,
    /// A state is due.
    Due,
    /// No state is due, and there will be one behind the last row.
    Owing,
    /// No state is due, and none stands behind the last row unless one more is given.
    Settled,
    Over,
}

/// A stream whose lines are given one by one: `STARTED`, its records and states, and `COMPLETE`.
#[derive(Drop)]
pub struct StreamTurn {
    id: StreamId,
    moment: u64,
    every: u32,
    blob: Bytes,
    stage: Stage,
    given: usize,
    since: usize,
    // The texts around a record's body, and before a state's blob.
    record_start: Bytes,
    record_end: Bytes,
    state_start: Bytes,
}

impl Model for StreamTurn {
    ghost use Rattle.std.specs.Prelude.{◌≡◌, ◌≤◌};
    ghost use Rattle.source_lines.specs.Turns.{Turn};
    ghost use Rattle.source_lines.specs.Heads.{record_head, record_tail, state_head};

    ghost Value = { Turn };

    ghost view = { λ turn. record { form = record { id = turn.id; moment = turn.moment; every = turn.every }; blob = turn.blob; stage = turn.stage; given = turn.given; since = turn.since } };

    ghost invariant = { λ turn. (turn.since ≤ turn.given) × (turn.record_start ≡ record_head turn.id) × (turn.record_end ≡ record_tail turn.moment) × (turn.state_start ≡ state_head turn.id) };
}

impl StreamTurn {
    ghost use Rattle.std.specs.Prelude.{◌≡◌, ◌≤◌, ◌<◌, ◌+◌, ◌++◌, List, length, take, IfOk, OnOk, OnErr, Some, slice_get};
    ghost use Rattle.airbyte_message.specs.declared.stream_status.StreamStatus.TheVariants as status;
    ghost use Rattle.source_lines.specs.declared.turn.Stage.TheVariants as stage;
    ghost use Rattle.source_lines.specs.Lines.{record_line, state_line, status_line};
    ghost use Rattle.source_lines.specs.Checkpoints.{Row};
    ghost use Rattle.source_lines.specs.Streams.{blob_behind, stream_lines};
    ghost use Rattle.source_lines.specs.Turns.{GivesLine, first_turn, left_at, turn_behind};

    /// A stream that starts with this blob: with `every` records since the last state, a state is due. The moment, in
    /// milliseconds since 1970, is that of all its lines.
    pub fn new(
        alloc: Global,
        id: StreamId,
        moment: u64,
        every: u32,
        blob: Bytes,
    ) -> Result<Self, NoMemory>
        ensures first { IfOk result (λ turn. turn ≡ first_turn (record { id = id; moment = moment; every = every }) blob) }
        ensures left { IfOk result (λ turn. (rows : List Row) → left_at turn rows ≡ stream_lines (record { id = id; moment = moment; every = every }) blob rows) }
    {
        let record_start = record_start(alloc, &id)?;
        let record_end = record_end(alloc, moment)?;
        let state_start = state_start(alloc, &id)?;
        Ok(StreamTurn {
            id,
            moment,
            every,
            blob,
            stage: Stage::Unstarted,
            given: 0,
            since: 0,
            record_start,
            record_end,
            state_start,
        })
    }

    // The line that the stream is started, or complete.
    fn status_line(&self, alloc: Global, status: StreamStatus) -> Result<Bytes, NoMemory>
        ensures { IfOk result (λ line. line ≡ status_line self.now.form.id self.now.form.moment status) }
    {
        status_line_of(alloc, &self.id, self.moment, status)
    }

    // The line of the row at a place.
    fn record_line<L: ListedRows>(
        &self,
        alloc: Global,
        rows: &L,
        place: usize,
    ) -> Result<Bytes, NoMemory>
        requires { place < length (L.rows rows.now) }
        ensures { IfOk result (λ line. (row : Row) → slice_get (L.rows rows.now) place ≡ Some row → line ≡ record_line self.now.form.id self.now.form.moment row.body) }
    {
        let mut line = self.record_start.copy(alloc)?;
        rows.put_body(place, &mut line)?;
        line.extend(self.record_end.as_slice())?;
        Ok(line)
    }

    // Puts the blob behind the rows that were given.
    fn put_blob<L: ListedRows>(&self, rows: &L, line: &mut Bytes) -> Result<(), NoMemory>
        requires { self.now.given ≤ length (L.rows rows.now) }
        ensures { OnOk result (line.new ≡ line.old ++ blob_behind self.now.blob (take self.now.given (L.rows rows.now))) }
    {
        if self.given == 0 {
            return line.extend(self.blob.as_slice());
        }
        rows.put_blob(self.given - 1, line)
    }

    // The state behind the rows that were given.
    fn state_line<L: ListedRows>(&self, alloc: Global, rows: &L) -> Result<Bytes, NoMemory>
        requires { self.now.given ≤ length (L.rows rows.now) }
        ensures { IfOk result (λ line. line ≡ state_line self.now.form.id (blob_behind self.now.blob (take self.now.given (L.rows rows.now))) self.now.since) }
    {
        let mut line = self.state_start.copy(alloc)?;
        self.put_blob(rows, &mut line)?;
        put_state_end(&mut line, self.since as u64)?;
        Ok(line)
    }

    // Gives the state behind the rows that were given.
    fn give_state<L: ListedRows>(&mut self, alloc: Global, rows: &L) -> Result<Bytes, NoMemory>
        requires { self.old.given ≤ length (L.rows rows.now) }
        ensures line { IfOk result (λ line. line ≡ state_line self.old.form.id (blob_behind self.old.blob (take self.old.given (L.rows rows.now))) self.old.since) }
        ensures ok { OnOk result (self.new ≡ record (self.old) { stage = stage.Settled; since = 0 }) }
        ensures err { OnErr result (self.new ≡ self.old) }
    {
        let line = self.state_line(alloc, rows)?;
        self.stage = Stage::Settled;
        self.since = 0;
        Ok(line)
    }

    // Gives the next row.
    fn give_record<L: ListedRows>(&mut self, alloc: Global, rows: &L) -> Result<Bytes, NoMemory>
        requires { self.old.given < length (L.rows rows.now) }
        ensures line { IfOk result (λ line. (row : Row) → slice_get (L.rows rows.now) self.old.given ≡ Some row → line ≡ record_line self.old.form.id self.old.form.moment row.body) }
        ensures turned { OnOk result ((row : Row) → slice_get (L.rows rows.now) self.old.given ≡ Some row → self.new ≡ turn_behind self.old row) }
        ensures given { OnOk result (self.new.given ≡ self.old.given + 1) }
        ensures form { self.new.form ≡ self.old.form }
        ensures blob { self.new.blob ≡ self.old.blob }
        ensures err { OnErr result (self.new ≡ self.old) }
    {
        let _count = rows.len();
        let line = self.record_line(alloc, rows, self.given)?;
        let closes = rows.closes(self.given);
        self.given += 1;
        self.since += 1;
        self.stage = if self.since as u64 >= u64::from(self.every) && closes {
            Stage::Due
        } else {
            Stage::Owing
        };
        Ok(line)
    }

    // Gives the status at the beginning or at the end.
    fn give_status(
        &mut self,
        alloc: Global,
        status: StreamStatus,
        next: Stage,
    ) -> Result<Bytes, NoMemory>
        ensures line { IfOk result (λ line. line ≡ status_line self.old.form.id self.old.form.moment status) }
        ensures ok { OnOk result (self.new ≡ record (self.old) { stage = next }) }
        ensures err { OnErr result (self.new ≡ self.old) }
    {
        let line = self.status_line(alloc, status)?;
        self.stage = next;
        Ok(line)
    }

    /// The next line of a stream of these rows; `None` where all were given. The rows are the same in each call.
    pub fn next_line<L: ListedRows>(
        &mut self,
        alloc: Global,
        rows: &L,
    ) -> Result<Option<Bytes>, NoMemory>
        requires { self.old.given ≤ length (L.rows rows.now) }
        ensures line { IfOk result (λ found. GivesLine found (left_at self.old (L.rows rows.now)) (left_at self.new (L.rows rows.now))) }
        ensures within { self.new.given ≤ length (L.rows rows.now) }
        ensures form { self.new.form ≡ self.old.form }
        ensures blob { self.new.blob ≡ self.old.blob }
        ensures err { OnErr result (self.new ≡ self.old) }
    {
        let is_more = self.given < rows.len();
        match self.stage {
            Stage::Unstarted => Ok(Some(self.give_status(
                alloc,
                StreamStatus::Started,
                Stage::Owing,
            )?)),
            Stage::Due => Ok(Some(self.give_state(alloc, rows)?)),
            Stage::Owing if is_more => Ok(Some(self.give_record(alloc, rows)?)),
            Stage::Owing => Ok(Some(self.give_state(alloc, rows)?)),
            Stage::Settled if is_more => Ok(Some(self.give_record(alloc, rows)?)),
            Stage::Settled => Ok(Some(self.give_status(
                alloc,
                StreamStatus::Complete,
                Stage::Over,
            )?)),
            Stage::Over => Ok(None),
        }
    }
}
