// The events of the plain world.
ghost use Rattle.std.specs.Prelude.{◌≡◌, [], ◌∷◌, IfOk};
ghost use Rattle.worker_run.specs.World.{row_of, first_events, last_events, record_events as record_events_of, state_events as state_events_of};

use crate::store::store_text;
use airbyte_message::{RecordMsg, StateMsg};
use outside::{
    AttemptPlan, Boxed, Bytes, Codes, Event, Exit, Job, LoadPlan, Name, NoMemory, RawRow,
    RawRowList, StreamId, StreamPlan,
};
use std::alloc::Global;

// The number of the only load, and that of the only stream.
const LOAD: u64 = 1;

const STREAM: u32 = 0;

// The row of a record with this number.
fn row_of_record(alloc: Global, number: u64, content: RecordMsg) -> RawRow
    ensures { result ≡ row_of number content }
{
    RawRow {
        load: LOAD,
        seq: number,
        generation: 0,
        extracted_at: content.emitted_at,
        loaded_at: 0,
        raw_id: Bytes::new(alloc),
        key: Bytes::new(alloc),
        cursor: Bytes::new(alloc),
        body: content.body,
        columns: Bytes::new(alloc),
        meta: Bytes::new(alloc),
    }
}

/// The events of a record: its line is read, given, taken and committed.
pub fn record_events(
    alloc: Global,
    line: &[u8],
    number: u64,
    content: RecordMsg,
) -> Result<Vec<Event>, NoMemory>
    ensures { IfOk result (λ events. events.items ≡ record_events_of line.now number content) }
{
    let row = row_of_record(alloc, number, content);
    let rows = RawRowList::from_vec(Vec::from_array(alloc, [row])?);
    let read = Event::ReadLine(Bytes::copy_of(alloc, line)?);
    let given = Event::Given(Bytes::copy_of(alloc, line)?);
    let taken = Event::Took(Bytes::copy_of(alloc, line)?);
    let committed = Event::Committed {
        stream: STREAM,
        rows,
    };
    Ok(Vec::from_array(alloc, [read, given, taken, committed])?)
}

/// The event of a line that is passed over: it is read.
pub fn other_events(alloc: Global, line: &[u8]) -> Result<Vec<Event>, NoMemory>
    ensures { IfOk result (λ events. events.items ≡ Event.ReadLine line.now ∷ []) }
{
    let read = Event::ReadLine(Bytes::copy_of(alloc, line)?);
    Ok(Vec::from_array(alloc, [read])?)
}

/// The events of a state: its line is read, given and taken, its echo comes back, and its object is saved.
pub fn state_events(
    alloc: Global,
    line: &[u8],
    stream: &Name,
    state: &StateMsg,
    echo: Bytes,
) -> Result<Vec<Event>, NoMemory>
    ensures { IfOk result (λ events. events.items ≡ state_events_of stream.now line.now state.now.object echo) }
{
    let read = Event::ReadLine(Bytes::copy_of(alloc, line)?);
    let given = Event::Given(Bytes::copy_of(alloc, line)?);
    let taken = Event::Took(Bytes::copy_of(alloc, line)?);
    let got = Event::Got(Bytes::copy_of(alloc, echo.as_slice())?);
    let text = store_text(alloc, stream.as_str(), Some(state.object().as_slice()))?;
    let emitted = Event::Emitted(echo);
    Ok(Vec::from_array(
        alloc,
        [read, given, taken, emitted, got, Event::Saved(text)],
    )?)
}

/// The events before the first line: the load is opened, the empty store is saved, and the attempt starts.
pub fn opening_events(alloc: Global, stream: &Name) -> Result<Vec<Event>, NoMemory>
    ensures { IfOk result (λ events. events.items ≡ first_events stream.now) }
{
    let plan = StreamPlan {
        id: StreamId {
            name: Name::copy_of(alloc, stream.as_str())?,
            namespace: None,
        },
        dedup: false,
        generation: 0,
        minimum: 0,
        hidden: false,
    };
    let opened = Event::Opened {
        load: LOAD,
        moment: 0,
        plan: LoadPlan::from_vec(Vec::from_array(alloc, [plan])?),
    };
    let saved = Event::Saved(store_text(alloc, stream.as_str(), None)?);
    let attempt = AttemptPlan {
        number: 1,
        job: Job::Local,
        store: Name::copy_of(alloc, "")?,
        catalog: Bytes::new(alloc),
        states: Bytes::copy_of(alloc, b"[]")?,
    };
    let started = Event::Started(Boxed::new(alloc, attempt)?);
    Ok(Vec::from_array(alloc, [opened, saved, started])?)
}

/// The events behind the last line: both sides have ended well.
pub fn closing_events(alloc: Global) -> Result<Vec<Event>, NoMemory>
    ensures { IfOk result (λ events. events.items ≡ last_events) }
{
    let codes = Codes {
        source: Some(Exit::Code(0)),
        dest: Some(Exit::Code(0)),
    };
    Ok(Vec::from_array(
        alloc,
        [
            Event::ReadEnd,
            Event::Closed,
            Event::TookEnd,
            Event::GotEnd,
            Event::Ended(codes),
        ],
    )?)
}
