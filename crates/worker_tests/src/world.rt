// The plain world on its happy path, and no link.
use outside::{
    AttemptPlan, Bytes, Event, Fault, Job, Link, Name, NoLink, NoMemory, Offered, Polled,
};
use std::alloc::Global;
use std::test::Fail;
use worker_run::{PlainWorld, Step};

const MESSAGES: &str =
    "{\"type\":\"RECORD\",\"record\":{\"stream\":\"a\",\"data\":{\"id\":7,\"v\":1},\"emitted_at\":1}}\n{\"type\":\"STATE\",\"state\":{\"type\":\"STREAM\",\"stream\":{\"stream_descriptor\":{\"name\":\"a\"},\"stream_state\":{\"n\":1}},\"sourceStats\":{\"recordCount\":1}}}\n";

// The state in it.
const OBJECT: &str =
    "{\"type\":\"STREAM\",\"stream\":{\"stream_descriptor\":{\"name\":\"a\"},\"stream_state\":{\"n\":1}},\"sourceStats\":{\"recordCount\":1}}";

// The store's text with that state, and with none.
const HELD: &str =
    "{\"version\":1,\"streams\":[{\"name\":\"a\",\"generation\":0,\"state\":{\"type\":\"STREAM\",\"stream\":{\"stream_descriptor\":{\"name\":\"a\"},\"stream_state\":{\"n\":1}},\"sourceStats\":{\"recordCount\":1}}}],\"global\":null}";

const EMPTY: &str =
    "{\"version\":1,\"streams\":[{\"name\":\"a\",\"generation\":0,\"state\":null}],\"global\":null}";

// A short name for what happened.
fn kind_of(event: &Event) -> &'static str {
    match event {
        Event::Opened { .. } => "Opened",
        Event::Took(_) => "Took",
        Event::TookEnd => "TookEnd",
        Event::Committed { .. } => "Committed",
        Event::Emitted(_) => "Emitted",
        Event::Merged { .. } => "Merged",
        Event::Shown { .. } => "Shown",
        Event::Started(_) => "Started",
        Event::ReadLine(_) => "ReadLine",
        Event::ReadEnd => "ReadEnd",
        Event::Given(_) => "Given",
        Event::Closed => "Closed",
        Event::Got(_) => "Got",
        Event::GotEnd => "GotEnd",
        Event::Saved(_) => "Saved",
        Event::Ended(_) => "Ended",
    }
}

const KINDS: &[&str] = &[
    "Opened",
    "Saved",
    "Started",
    "ReadLine",
    "Given",
    "Took",
    "Committed",
    "ReadLine",
    "Given",
    "Took",
    "Emitted",
    "Got",
    "Saved",
    "ReadEnd",
    "Closed",
    "TookEnd",
    "GotEnd",
    "Ended",
];

// Whether these kinds of events happened in the world, in this order, and no others.
fn happened(world: &PlainWorld, kinds: &[&str]) -> bool {
    let events = world.events().as_slice();
    let mut pairs = events.iter().zip(kinds);
    events.len() == kinds.len() && pairs.all(|(event, kind)| kind_of(event) == *kind)
}

// Whether the event of the world at this place saved this text.
fn saved(world: &PlainWorld, place: usize, text: &str) -> bool {
    match world.events().as_slice().get(place) {
        Some(Event::Saved(found)) => found.as_slice() == text.as_bytes(),
        _ => false,
    }
}

// Whether the world has taken so many records.
fn has_taken(world: &PlainWorld, records: u64) -> bool {
    world.records() == records
}

// A world over this text of a stream.
fn begin(alloc: Global, text: Bytes, stream: Name) -> Result<PlainWorld, NoMemory> {
    PlainWorld::new(alloc, text, stream)
}

// A world over these messages of the stream `a`.
fn world_of(alloc: Global, messages: &str) -> Result<PlainWorld, NoMemory> {
    let stream = Name::copy_of(alloc, "a")?;
    let text = Bytes::copy_of(alloc, messages.as_bytes())?;
    begin(alloc, text, stream)
}

// Whether the next step takes a record.
fn takes_a_record(world: &mut PlainWorld) -> Result<bool, NoMemory> {
    match world.step()? {
        Step::Record => Ok(true),
        _ => Ok(false),
    }
}

// Whether the next step saves this state.
fn saves(world: &mut PlainWorld, object: &str) -> Result<bool, NoMemory> {
    match world.step()? {
        Step::Saved(found) => Ok(found.as_slice() == object.as_bytes()),
        _ => Ok(false),
    }
}

// Whether no line is left.
fn is_done(world: &mut PlainWorld) -> Result<bool, NoMemory> {
    match world.step()? {
        Step::Done => Ok(true),
        _ => Ok(false),
    }
}

// Whether the world takes a record and saves a state, and then no line is left, once and for good.
fn takes_both(world: &mut PlainWorld) -> Result<bool, NoMemory> {
    let record = takes_a_record(world)?;
    let state = saves(world, OBJECT)?;
    let done = is_done(world)?;
    let again = is_done(world)?;
    Ok(record && state && done && again)
}

// Whether the store began without a state, and has the one that was saved.
fn has_stored(world: &PlainWorld) -> bool {
    saved(world, 1, EMPTY) && saved(world, 12, HELD)
}

#[test]
fn a_world_keeps_its_events_in_order(rt: HostRuntime) -> Result<(), Fail> {
    let mut world = world_of(rt.alloc(), MESSAGES)?;
    let steps = takes_both(&mut world)?;
    assert!(rt; steps, "a record and a state are taken");
    assert!(rt; has_taken(&world, 1), "one record");
    assert!(rt; happened(&world, KINDS), "the events");
    assert!(rt; has_stored(&world), "the states in the store");
    Ok(())
}

const PASSED_OVER: &str =
    "{\"type\":\"STATE\",\"state\":{\"type\":\"STREAM\",\"stream\":{\"stream_descriptor\":{\"name\":\"a\"},\"stream_state\":{}},\"sourceStats\":{\"recordCount\":1.5}}}";

// How long the text is that is said of the next line, if it is passed over.
fn passed_over(world: &mut PlainWorld) -> Result<Option<usize>, NoMemory> {
    match world.step()? {
        Step::Other(said) => Ok(Some(said.map(|text| text.len()).unwrap_or(0))),
        _ => Ok(None),
    }
}

#[test]
fn a_line_that_is_no_message_is_read_and_not_given(rt: HostRuntime) -> Result<(), Fail> {
    let mut world = world_of(rt.alloc(), PASSED_OVER)?;
    let size = passed_over(&mut world)?.ok_or("a line that is passed over")?;
    assert_eq!(rt; size, PASSED_OVER.len() + "source: ".len());
    let events = world.events().as_slice();
    assert_eq!(rt; events.len(), 4);
    assert!(rt; matches!(events.get(3), Some(Event::ReadLine(_))));
    Ok(())
}

// Whether the store cannot be read nor written over this link.
fn store_fails(alloc: Global, link: &mut NoLink) -> bool {
    let loaded = matches!(link.load_states(alloc, "s"), Err(Fault::Failed));
    let saved = matches!(link.save_states("s", b""), Err(Fault::Failed));
    loaded && saved
}

// An attempt of the command `local`, without a catalog and without states.
fn plan_of(alloc: Global) -> Result<AttemptPlan, NoMemory> {
    Ok(AttemptPlan {
        number: 1,
        job: Job::Local,
        store: Name::copy_of(alloc, "s")?,
        catalog: Bytes::new(alloc),
        states: Bytes::new(alloc),
    })
}

// Whether no attempt can be started nor ended over this link.
fn attempt_fails(alloc: Global, link: &mut NoLink) -> Result<bool, NoMemory> {
    let started = matches!(link.start(&plan_of(alloc)?), Err(Fault::Failed));
    let closed = matches!(link.close_dest(), Err(Fault::Failed));
    let stopped = matches!(link.stop(), Err(Fault::Failed));
    Ok(started && closed && stopped)
}

// Whether nothing comes and nothing goes over this link.
fn pipes_fail(link: &mut NoLink) -> bool {
    let source = matches!(link.poll_source(), Polled::Failed);
    let dest = matches!(link.poll_dest(), Polled::Failed);
    let offered = matches!(link.offer_dest(b"x"), Offered::Failed);
    source && dest && offered
}

#[test]
fn no_link_fails_and_knows_nothing(rt: HostRuntime) -> Result<(), Fail> {
    let mut link = NoLink::new();
    assert!(rt; store_fails(rt.alloc(), &mut link), "the store");
    assert!(rt; attempt_fails(rt.alloc(), &mut link)?, "an attempt");
    assert!(rt; pipes_fail(&mut link), "the pipes");
    assert!(rt; link.exit_codes().source.is_none());
    link.wait();
    Ok(())
}
