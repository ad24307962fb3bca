// A link that plays a script.
use basics::{Bytes, FailList, Name, NoMemory};
use outside::{AttemptPlan, Codes, Event, EventList, Exit, Fault, Job, Link, Offered, Polled};
use script_link::{PolledList, Script, ScriptLink, ScriptList};
use std::alloc::Global;
use std::test::Fail;

fn plan_of(alloc: Global) -> Result<AttemptPlan, NoMemory> {
    Ok(AttemptPlan {
        number: 1,
        job: Job::Local,
        store: Name::copy_of(alloc, "s")?,
        catalog: Bytes::new(alloc),
        states: Bytes::new(alloc),
    })
}

// A line, an answer that nothing stands ready, a fault, a torn piece and an end.
fn source_of(alloc: Global) -> Result<PolledList, NoMemory> {
    let mut source = PolledList::new(alloc);
    source.push(Polled::Line(Bytes::copy_of(alloc, b"one")?))?;
    source.push(Polled::NotYet)?;
    source.push(Polled::Failed)?;
    source.push(Polled::Torn(Bytes::copy_of(alloc, b"two")?))?;
    source.push(Polled::End)?;
    Ok(source)
}

// One line.
fn dest_of(alloc: Global) -> Result<PolledList, NoMemory> {
    let mut dest = PolledList::new(alloc);
    dest.push(Polled::Line(Bytes::copy_of(alloc, b"got")?))?;
    Ok(dest)
}

fn script_of(alloc: Global) -> Result<Script, NoMemory> {
    Ok(Script {
        source: source_of(alloc)?,
        dest: dest_of(alloc)?,
        codes: Codes {
            source: Some(Exit::Code(3)),
            dest: Some(Exit::Signal),
        },
    })
}

fn trace_of(alloc: Global) -> Result<EventList, NoMemory> {
    let mut trace = EventList::new(alloc);
    trace.push(Event::Saved(Bytes::copy_of(alloc, b"old")?))?;
    Ok(trace)
}

fn scripts_of(alloc: Global) -> Result<ScriptList, NoMemory> {
    let mut scripts = ScriptList::new(alloc);
    scripts.push(script_of(alloc)?)?;
    Ok(scripts)
}

// A link with one script, whose store has the text `old`; of its calls this one fails.
fn link_of(alloc: Global, failing: u64) -> Result<ScriptLink, NoMemory> {
    let mut fails = FailList::new(alloc);
    fails.push(failing)?;
    ScriptLink::new(alloc, trace_of(alloc)?, scripts_of(alloc)?, fails)
}

fn put_line(told: &mut Bytes, word: &str, line: &[u8]) -> Result<(), NoMemory> {
    told.extend(word.as_bytes())?;
    told.extend(line)?;
    told.push(b'\n')
}

fn put_polled(told: &mut Bytes, polled: Polled) -> Result<(), NoMemory> {
    match polled {
        Polled::Line(line) => put_line(told, "line ", line.as_slice()),
        Polled::Torn(line) => put_line(told, "torn ", line.as_slice()),
        Polled::TooLong => put_line(told, "too long", b""),
        Polled::NotYet => put_line(told, "not yet", b""),
        Polled::End => put_line(told, "end", b""),
        Polled::Failed => put_line(told, "failed", b""),
        Polled::NoMemory => Err(NoMemory),
    }
}

fn put_done(told: &mut Bytes, done: Result<(), Fault>) -> Result<(), NoMemory> {
    match done {
        Ok(()) => put_line(told, "ok", b""),
        Err(Fault::Failed) => put_line(told, "failed", b""),
        Err(Fault::NoMemory) => Err(NoMemory),
    }
}

fn put_text(told: &mut Bytes, text: Result<Bytes, Fault>) -> Result<(), NoMemory> {
    match text {
        Ok(text) => put_line(told, "text ", text.as_slice()),
        Err(Fault::Failed) => put_line(told, "failed", b""),
        Err(Fault::NoMemory) => Err(NoMemory),
    }
}

fn put_offered(told: &mut Bytes, offered: Offered) -> Result<(), NoMemory> {
    match offered {
        Offered::Taken => put_line(told, "taken", b""),
        Offered::NotYet => put_line(told, "not yet", b""),
        Offered::Failed => put_line(told, "failed", b""),
        Offered::NoMemory => Err(NoMemory),
    }
}

fn put_codes(alloc: Global, told: &mut Bytes, codes: Codes) -> Result<(), NoMemory> {
    let source = codes.source;
    let dest = codes.dest;
    let text = format!(in alloc; "{source:?} {dest:?}")?;
    put_line(told, "codes ", text.as_bytes())
}

fn put_event(alloc: Global, told: &mut Bytes, event: &Event) -> Result<(), NoMemory> {
    match event {
        Event::Started(_) => put_line(told, "+ started", b""),
        Event::ReadLine(line) => put_line(told, "+ read ", line.as_slice()),
        Event::ReadEnd => put_line(told, "+ read all", b""),
        Event::Given(line) => put_line(told, "+ given ", line.as_slice()),
        Event::Closed => put_line(told, "+ closed", b""),
        Event::Got(line) => put_line(told, "+ got ", line.as_slice()),
        Event::GotEnd => put_line(told, "+ got all", b""),
        Event::Saved(text) => put_line(told, "+ saved ", text.as_slice()),
        Event::Ended(codes) => put_codes(alloc, told, *codes),
        _ => put_line(told, "+ of a destination", b""),
    }
}

fn play_start(alloc: Global, told: &mut Bytes, link: &mut ScriptLink) -> Result<(), NoMemory> {
    let plan = plan_of(alloc)?;
    put_text(told, link.load_states(alloc, "s"))?;
    put_done(told, link.start(&plan))
}

fn play_source(alloc: Global, told: &mut Bytes, link: &mut ScriptLink) -> Result<(), NoMemory> {
    for _ in 0..6 {
        put_polled(told, link.poll_source())?;
    }
    put_codes(alloc, told, link.exit_codes())
}

fn play_dest(told: &mut Bytes, link: &mut ScriptLink) -> Result<(), NoMemory> {
    put_offered(told, link.offer_dest(b"x"))?;
    put_done(told, link.close_dest())?;
    put_polled(told, link.poll_dest())?;
    put_polled(told, link.poll_dest())
}

fn play_end(alloc: Global, told: &mut Bytes, link: &mut ScriptLink) -> Result<(), NoMemory> {
    put_done(told, link.save_states("s", b"new"))?;
    put_done(told, link.stop())?;
    link.wait();
    put_codes(alloc, told, link.exit_codes())?;
    put_text(told, link.load_states(alloc, "s"))
}

// Plays an attempt, and tells each answer and then each event with the counts of faults and quiet answers.
fn play_on(alloc: Global, told: &mut Bytes, link: &mut ScriptLink) -> Result<(), NoMemory> {
    play_start(alloc, told, link)?;
    play_source(alloc, told, link)?;
    play_dest(told, link)?;
    play_end(alloc, told, link)?;
    put_events(alloc, told, link)
}

fn play(alloc: Global, failing: u64) -> Result<Bytes, NoMemory> {
    let mut told = Bytes::new(alloc);
    let mut link = link_of(alloc, failing)?;
    play_on(alloc, &mut told, &mut link)?;
    Ok(told)
}

fn put_events(alloc: Global, told: &mut Bytes, link: &ScriptLink) -> Result<(), NoMemory> {
    for at in link.told().as_slice() {
        put_event(alloc, told, &at.event)?;
        let faults = at.counts.link_faults;
        let quiet = at.counts.quiet_source;
        let text = format!(in alloc; "{faults} {quiet}")?;
        put_line(told, "  at ", text.as_bytes())?;
    }
    Ok(())
}

const PLAYED: &str = "text old
ok
line one
not yet
failed
torn two
end
end
codes Some(Code(3)) None
taken
ok
line got
not yet
ok
ok
codes Some(Code(3)) Some(Signal)
text new
+ saved old
  at 0 0
+ started
  at 0 0
+ read one
  at 0 0
+ read two
  at 1 1
+ read all
  at 1 1
+ given x
  at 1 1
+ closed
  at 1 1
+ got got
  at 1 1
+ saved new
  at 1 1
codes Some(Code(3)) Some(Signal)
  at 1 1
";

// The third call fails: the first poll of the source, which gives its line at the next.
const THIRD_FAILS: &str = "text old
ok
failed
line one
not yet
failed
torn two
end
codes Some(Code(3)) None
taken
ok
line got
not yet
ok
ok
codes Some(Code(3)) Some(Signal)
text new
+ saved old
  at 0 0
+ started
  at 0 0
+ read one
  at 1 0
+ read two
  at 2 1
+ read all
  at 2 1
+ given x
  at 2 1
+ closed
  at 2 1
+ got got
  at 2 1
+ saved new
  at 2 1
codes Some(Code(3)) Some(Signal)
  at 2 1
";

#[test]
fn a_script_is_played(rt: HostRuntime) -> Result<(), Fail> {
    let told = play(rt.alloc(), 0)?;
    assert_eq!(rt; told.as_slice(), PLAYED.as_bytes(), "no call fails");
    let told = play(rt.alloc(), 3)?;
    assert_eq!(rt;
        told.as_slice(),
        THIRD_FAILS.as_bytes(),
        "the third call fails"
    );
    Ok(())
}

// The first answer of a link's source.
fn first_answer<L: Link>(link: &mut L, plan: &AttemptPlan) -> Result<Polled, Fault> {
    link.start(plan)?;
    Ok(link.poll_source())
}

#[test]
fn a_link_is_driven_by_its_trait(rt: HostRuntime) -> Result<(), Fail> {
    let mut told = Bytes::new(rt.alloc());
    let mut link = link_of(rt.alloc(), 0)?;
    let plan = plan_of(rt.alloc())?;
    put_polled(&mut told, first_answer(&mut link, &plan)?)?;
    put_polled(&mut told, first_answer(&mut link, &plan)?)?;
    assert_eq!(rt;
        told.as_slice(),
        b"line one\nnot yet\n".as_slice(),
        "two attempts"
    );
    Ok(())
}
