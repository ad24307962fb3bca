// Which states a gate lets go, and when.
use airbyte_message::{Message, StateMsg, read_message};
use basics::{Bytes, NoMemory};
use json_write::put_number;
use state_gate::{Gate, Lane};
use std::alloc::Global;
use std::test::Fail;

// What is done with a gate.
#[derive(Clone, Copy)]
enum Act {
    Record(u32, u64),
    State(Lane),
    Commit(u32, &'static [u64]),
}

const STATE: &str =
    r#"{"type":"STATE","state":{"type":"STREAM","stream":{"stream_descriptor":{"name":"a"}}}}"#;

fn state_of(alloc: Global) -> Result<Option<StateMsg>, NoMemory> {
    match read_message(alloc, STATE.as_bytes())? {
        Some(Message::State(state)) => Ok(Some(state)),
        _ => Ok(None),
    }
}

fn accept_record(gate: &mut Gate, stream: u32, seq: u64) -> Result<(), NoMemory> {
    gate.reserve()?;
    if stream < gate.streams() && gate.next() <= seq && seq < u64::MAX {
        gate.accept_record(stream, seq);
    }
    Ok(())
}

fn accept_state(alloc: Global, gate: &mut Gate, lane: Lane) -> Result<(), NoMemory> {
    let Some(state) = state_of(alloc)? else {
        return Ok(());
    };
    gate.reserve()?;
    let is_there = match lane {
        Lane::Stream(stream) => stream < gate.streams(),
        Lane::Global => true,
    };
    if is_there && gate.states() < u64::MAX {
        gate.accept_state(lane, state);
    }
    Ok(())
}

// Takes out the states that may go, and writes the number and the count of each.
fn release(gate: &mut Gate, said: &mut Bytes) -> Result<(), NoMemory> {
    for _ in 0..8 {
        if let Some(state) = gate.take_head() {
            put_number(said, state.number)?;
            said.extend(b":")?;
            put_number(said, state.count)?;
            said.extend(b",")?;
        }
    }
    said.extend(b" ")
}

fn play(alloc: Global, gate: &mut Gate, acts: &[Act]) -> Result<Bytes, NoMemory> {
    let mut said = Bytes::new(alloc);
    for act in acts {
        match *act {
            Act::Record(stream, seq) => accept_record(gate, stream, seq)?,
            Act::State(lane) => accept_state(alloc, gate, lane)?,
            Act::Commit(stream, seqs) => gate.committed(stream, seqs),
        }
        release(gate, &mut said)?;
    }
    Ok(said)
}

#[test]
fn states_go_behind_their_records(rt: HostRuntime) -> Result<(), Fail> {
    for (acts, said) in [
        // Batches of a stream that are committed in the other order.
        (
            &[
                Act::Record(0, 0),
                Act::Record(0, 1),
                Act::State(Lane::Stream(0)),
                Act::Record(0, 2),
                Act::State(Lane::Stream(0)),
                Act::Commit(0, &[2]),
                Act::Commit(0, &[0, 1]),
            ][..],
            "      0:2,1:1, ",
        ),
        // A state of all streams waits for each of them.
        (
            &[
                Act::Record(0, 0),
                Act::Record(1, 1),
                Act::State(Lane::Global),
                Act::Commit(0, &[0]),
                Act::Commit(1, &[1]),
            ],
            "    0:2, ",
        ),
        // A state before any record goes at once; one behind a record does not.
        (
            &[
                Act::State(Lane::Stream(0)),
                Act::Record(0, 0),
                Act::State(Lane::Stream(0)),
                Act::Commit(0, &[]),
                Act::Commit(0, &[0]),
            ],
            "0:0,    1:1, ",
        ),
        // Streams do not wait for one another, and a record behind a state counts for the next.
        (
            &[
                Act::Record(0, 0),
                Act::Record(1, 1),
                Act::State(Lane::Stream(1)),
                Act::State(Lane::Stream(0)),
                Act::Record(1, 2),
                Act::Commit(0, &[0]),
                Act::State(Lane::Stream(1)),
                Act::Commit(1, &[2, 1]),
            ],
            "     1:1,  0:1,2:1, ",
        ),
    ] {
        let mut gate = Gate::new(rt.alloc(), 2)?;
        let found = play(rt.alloc(), &mut gate, acts)?;
        assert_eq!(rt; found.as_slice(), said.as_bytes(), "{said}");
    }
    Ok(())
}
