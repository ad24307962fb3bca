// A set that begins, takes states and is written.
use crate::parts::{ONE_STREAM, TWO_STREAMS, generations};
use airbyte_message::state_of;
use basics::{Bytes, NoMemory};
use catalog::read_configured;
use outside::{CatalogFault, StateFault};
use state_kinds::{SavedSet, write_list, write_store};
use std::alloc::Global;
use std::test::Fail;

const STATE_OF_A: &str =
    r#"{"type":"STREAM","stream":{"stream_descriptor":{"name":"a"},"stream_state":{}},"sourceStats":{"recordCount":0}}"#;

const STATE_OF_NA: &str =
    r#"{"type":"STREAM","stream":{"stream_descriptor":{"namespace":"n","name":"a"}}}"#;

const STATE_OF_B: &str = r#"{"type":"STREAM","stream":{"stream_descriptor":{"name":"b"}}}"#;

const STATE_OF_ALL: &str = r#"{"type":"GLOBAL","global":{"stream_states":[]}}"#;

const OLD_STATE: &str = r#"{"a":1}"#;

// Begins an attempt with the streams of a catalog, each with this generation.
fn begin(
    alloc: Global,
    set: &mut SavedSet,
    catalog: &str,
    generation: u64,
) -> Result<(), CatalogFault> {
    let configured = read_configured(alloc, catalog.as_bytes())?;
    let gens = generations(alloc, &configured, generation)?;
    if gens.len() == configured.len() as usize {
        set.begin(alloc, &configured, &gens)?;
    }
    Ok(())
}

// Puts the state of a text; its fault, where it is refused. A text that is no state is NotJson.
fn put(alloc: Global, set: &mut SavedSet, text: &str) -> Result<Option<StateFault>, NoMemory> {
    let Some(state) = state_of(alloc, text.as_bytes())? else {
        return Ok(Some(StateFault::NotJson));
    };
    match set.put(state) {
        Ok(()) => Ok(None),
        Err(fault) => Ok(Some(fault)),
    }
}

// The list for the streams of a catalog.
fn list_of(alloc: Global, set: &SavedSet, catalog: &str) -> Result<Bytes, CatalogFault> {
    let configured = read_configured(alloc, catalog.as_bytes())?;
    Ok(write_list(alloc, set, &configured)?)
}

// The store's text, and the list for these streams, of a set that has begun, was given these states, and began again. What
// was refused stands in front.
fn told(alloc: Global, catalog: &str, states: &[&str], again: u64) -> Result<Bytes, CatalogFault> {
    let mut set = SavedSet::new(alloc);
    let mut text = Bytes::new(alloc);
    begin(alloc, &mut set, catalog, 0)?;
    for state in states {
        let word = match put(alloc, &mut set, state)? {
            None => b"put ".as_slice(),
            Some(StateFault::Mixed) => b"mixed ".as_slice(),
            Some(StateFault::Unknown) => b"unknown ".as_slice(),
            Some(StateFault::Legacy) => b"legacy ".as_slice(),
            Some(_other) => b"other ".as_slice(),
        };
        text.extend(word)?;
    }
    begin(alloc, &mut set, catalog, again)?;
    let store = write_store(alloc, &set)?;
    text.extend(store.as_slice())?;
    text.push(b' ')?;
    let list = list_of(alloc, &set, catalog)?;
    text.extend(list.as_slice())?;
    Ok(text)
}

#[test]
fn a_set_takes_the_states_of_its_streams(rt: HostRuntime) -> Result<(), Fail> {
    for (catalog, states, again, want) in [
        (
            ONE_STREAM,
            ["", "", ""],
            0,
            r#"other other other {"version":1,"streams":[{"name":"a","generation":0,"state":null}],"global":null} []"#,
        ),
        (
            ONE_STREAM,
            [STATE_OF_A, STATE_OF_ALL, STATE_OF_B],
            0,
            r#"put mixed unknown {"version":1,"streams":[{"name":"a","generation":0,"state":{"type":"STREAM","stream":{"stream_descriptor":{"name":"a"},"stream_state":{}},"sourceStats":{"recordCount":0}}}],"global":null} [{"type":"STREAM","stream":{"stream_descriptor":{"name":"a"},"stream_state":{}},"sourceStats":{"recordCount":0}}]"#,
        ),
        (
            ONE_STREAM,
            [STATE_OF_A, OLD_STATE, STATE_OF_NA],
            1,
            r#"put legacy unknown {"version":1,"streams":[{"name":"a","generation":1,"state":null}],"global":null} []"#,
        ),
        (
            TWO_STREAMS,
            [STATE_OF_NA, STATE_OF_B, STATE_OF_A],
            0,
            r#"put put unknown {"version":1,"streams":[{"name":"b","generation":0,"state":{"type":"STREAM","stream":{"stream_descriptor":{"name":"b"}}}},{"name":"a","namespace":"n","generation":0,"state":{"type":"STREAM","stream":{"stream_descriptor":{"namespace":"n","name":"a"}}}}],"global":null} [{"type":"STREAM","stream":{"stream_descriptor":{"name":"b"}}},{"type":"STREAM","stream":{"stream_descriptor":{"namespace":"n","name":"a"}}}]"#,
        ),
        (
            TWO_STREAMS,
            [STATE_OF_ALL, STATE_OF_B, STATE_OF_ALL],
            0,
            r#"put mixed put {"version":1,"streams":[{"name":"b","generation":0,"state":null},{"name":"a","namespace":"n","generation":0,"state":null}],"global":{"type":"GLOBAL","global":{"stream_states":[]}}} [{"type":"GLOBAL","global":{"stream_states":[]}}]"#,
        ),
        (
            TWO_STREAMS,
            [STATE_OF_ALL, STATE_OF_ALL, STATE_OF_ALL],
            7,
            r#"put put put {"version":1,"streams":[{"name":"b","generation":7,"state":null},{"name":"a","namespace":"n","generation":7,"state":null}],"global":null} []"#,
        ),
    ] {
        let Ok(text) = told(rt.alloc(), catalog, &states, again) else {
            return Err(Fail::from(NoMemory));
        };
        assert_eq!(rt; text.as_slice(), want.as_bytes());
    }
    Ok(())
}

// The list for one catalog of a set that began with another, and was given these two states.
fn listed_for(
    alloc: Global,
    began: &str,
    states: (&str, &str),
    catalog: &str,
) -> Result<Bytes, CatalogFault> {
    let mut set = SavedSet::new(alloc);
    begin(alloc, &mut set, began, 0)?;
    let _first = put(alloc, &mut set, states.0)?;
    let _second = put(alloc, &mut set, states.1)?;
    begin(alloc, &mut set, catalog, 0)?;
    let mut text = list_of(alloc, &set, catalog)?;
    text.push(b' ')?;
    let began_list = list_of(alloc, &set, began)?;
    text.extend(began_list.as_slice())?;
    Ok(text)
}

#[test]
fn entries_of_other_streams_stay(rt: HostRuntime) -> Result<(), Fail> {
    let Ok(text) = listed_for(
        rt.alloc(),
        TWO_STREAMS,
        (STATE_OF_NA, STATE_OF_B),
        ONE_STREAM,
    ) else {
        return Err(Fail::from(NoMemory));
    };
    assert_eq!(rt;
        text.as_slice(),
        br#"[] [{"type":"STREAM","stream":{"stream_descriptor":{"name":"b"}}},{"type":"STREAM","stream":{"stream_descriptor":{"namespace":"n","name":"a"}}}]"#.as_slice()
    );
    Ok(())
}
