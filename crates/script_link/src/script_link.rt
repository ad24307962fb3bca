// A link that plays scripts.
ghost use Rattle.std.specs.Prelude.{◌≡◌, IfOk, OnErr, OnOk};
ghost use Rattle.outside.specs.Link.{kind_of};
ghost use Rattle.script_link.specs.Link.{got_event, known_exit, read_event};

use crate::answers::AnswerQueue;
use crate::link_trace::{LinkTrace, NOTHING_COUNTED, ToldList};
use outside::{
    AttemptPlan, Boxed, Bytes, Codes, Copies, Event, EventList, Exit, FailList, Fault, Link,
    LinkCounts, LinkFace, NoMemory, Offered, PollKind, Polled, Sequence,
};
use outside_mem::CallCount;
use std::alloc::Global;
use std::collections::VecDeque;
use std::marker::Model;

/// Answers of the polls of one output, in order.
pub type PolledList = Sequence<Polled>;

/// What the children of one attempt do.
#[derive(Debug, Drop)]
pub struct Script {
    /// What the polls of the source's output answer.
    pub source: PolledList,
    /// What the polls of the destination's output answer.
    pub dest: PolledList,
    /// How the children end. Each is known once all answers of its output were given.
    pub codes: Codes,
}

/// A script for each attempt, in order.
pub type ScriptList = Sequence<Script>;

const NO_CODES: Codes = Codes {
    source: None,
    dest: None,
};

/// A link whose children do what a script says, and which tells its trace.
///
/// Each start takes the next script, or an empty one where none is left. A poll gives the next answer of its script, and
/// behind them an end where the last one was an end, and nothing yet else. An offer is taken. Of its calls that can fail,
/// counted from 1, those whose numbers it was given do; such a call takes no script and no answer, and adds no event.
#[derive(Drop)]
pub struct ScriptLink {
    alloc: Global,
    trace: LinkTrace,
    counts: LinkCounts,
    face: LinkFace,
    scripts: VecDeque<Script>,
    source: AnswerQueue,
    dest: AnswerQueue,
    codes: Codes,
    calls: CallCount,
}

impl Model for ScriptLink {
    ghost use Rattle.script_link.specs.Link.{LinkState};

    ghost Value = { LinkState };

    ghost view = { λ link. record { trace = link.trace; counts = link.counts; face = link.face; scripts = link.scripts.items; source = link.source; dest = link.dest; codes = link.codes; calls = link.calls } };
}

// The kind of a poll's answer.
fn kind_of_poll(polled: &Polled) -> PollKind
    ensures { result ≡ kind_of polled.now }
{
    match polled {
        Polled::Line(_) => PollKind::Line,
        Polled::Torn(_) => PollKind::Torn,
        Polled::TooLong => PollKind::TooLong,
        _ => PollKind::Other,
    }
}

// The code of a child: the one that was given, or the script's once all answers of its output were given.
fn known(given: Option<Exit>, answers: &AnswerQueue, coming: Option<Exit>) -> Option<Exit>
    ensures { result ≡ known_exit given answers.now.left coming }
{
    match given {
        Some(exit) => Some(exit),
        None if answers.is_over() => coming,
        None => None,
    }
}

// What an answer of the source tells.
fn told_by_source(answer: Polled, over: bool) -> Option<Event>
    ensures { result ≡ read_event answer over }
{
    match answer {
        Polled::Line(line) => Some(Event::ReadLine(line)),
        Polled::Torn(line) => Some(Event::ReadLine(line)),
        Polled::End if !over => Some(Event::ReadEnd),
        _ => None,
    }
}

// What an answer of the destination tells.
fn told_by_dest(answer: Polled, over: bool) -> Option<Event>
    ensures { result ≡ got_event answer over }
{
    match answer {
        Polled::Line(line) => Some(Event::Got(line)),
        Polled::Torn(line) => Some(Event::Got(line)),
        Polled::End if !over => Some(Event::GotEnd),
        _ => None,
    }
}

impl ScriptLink {
    ghost use Rattle.std.specs.Prelude.{IsTrue, ◌↔◌};
    ghost use Rattle.outside.specs.declared.fault.Fault.TheVariants as fault;
    ghost use Rattle.outside.specs.Link.{NoneAbove};
    ghost use Rattle.script_link.specs.Trace.{trace_of};
    ghost use Rattle.script_link.specs.Link.{Fails, called, first_state, known_codes, link_failed, noted, others, running, script_in, state_failed, unstarted};

    /// A link that plays these scripts, one for each attempt. Its trace begins with these events, at which nothing was counted,
    /// so the state store's text is that of the last `Saved` among them.
    pub fn new(
        alloc: Global,
        trace: EventList,
        attempts: ScriptList,
        fails: FailList,
    ) -> Result<Self, NoMemory>
        ensures { IfOk result (λ link. link ≡ first_state trace attempts fails) }
    {
        Ok(ScriptLink {
            alloc,
            trace: LinkTrace::of_events(alloc, trace)?,
            counts: NOTHING_COUNTED,
            face: LinkFace {
                running: false,
                input_open: false,
                codes: NO_CODES,
                source_poll: PollKind::Other,
                dest_poll: PollKind::Other,
            },
            scripts: VecDeque::from_vec(attempts.into_vec()),
            source: AnswerQueue::new(PolledList::new(alloc)),
            dest: AnswerQueue::new(PolledList::new(alloc)),
            codes: NO_CODES,
            calls: CallCount::new(fails),
        })
    }

    /// The events so far, in order, each with the counts as they stood when it was added.
    pub fn told(&self) -> &ToldList
        ensures { trace_of result.now ≡ self.now.trace }
    {
        self.trace.told()
    }

    // Counts a call, and tells whether it is to fail.
    fn is_failing(&mut self) -> bool
        ensures fails { IsTrue result ↔ Fails self.old }
        ensures counted { self.new ≡ called self.old }
    {
        self.calls.is_failing()
    }

    // Counts a fault of the link.
    fn fail(&mut self) -> Fault
        ensures result { result ≡ fault.Failed }
        ensures counted { self.new ≡ link_failed self.old }
        ensures kept { NoneAbove self.old.counts self.new.counts }
    {
        self.counts.link_faults = self.counts.link_faults.saturating_add(1);
        Fault::Failed
    }

    // Counts a fault of the state store.
    fn fail_state(&mut self) -> Fault
        ensures result { result ≡ fault.Failed }
        ensures counted { self.new ≡ state_failed self.old }
        ensures kept { NoneAbove self.old.counts self.new.counts }
    {
        self.counts.state_faults = self.counts.state_faults.saturating_add(1);
        Fault::Failed
    }

    // Adds an event with the counts as they are.
    fn note(&mut self, event: Event) -> Result<(), NoMemory>
        ensures ok { OnOk result (self.new ≡ noted event self.old) }
        ensures err { OnErr result (self.new ≡ self.old) }
    {
        self.trace.push(event, self.counts)
    }

    // No child runs, and nothing is known of any.
    fn unstart(&mut self)
        ensures { self.new ≡ unstarted self.old }
    {
        self.face.running = false;
        self.face.input_open = false;
        self.face.codes = NO_CODES;
        self.codes = NO_CODES;
        self.source = AnswerQueue::new(PolledList::new(self.alloc));
        self.dest = AnswerQueue::new(PolledList::new(self.alloc));
    }

    // Takes the next script, or an empty one where none is left.
    fn take_script(&mut self) -> Script
        ensures taken { result ≡ script_in self.old.scripts }
        ensures left { self.new ≡ record (self.old) { scripts = others self.old.scripts } }
    {
        match self.scripts.pop_front() {
            Some(script) => script,
            None => Script {
                source: PolledList::new(self.alloc),
                dest: PolledList::new(self.alloc),
                codes: NO_CODES,
            },
        }
    }

    // The children of a script run.
    fn run(&mut self, script: Script)
        ensures { self.new ≡ running script self.old }
    {
        self.face = LinkFace {
            running: true,
            input_open: true,
            codes: NO_CODES,
            source_poll: PollKind::Other,
            dest_poll: PollKind::Other,
        };
        self.codes = script.codes;
        self.source = AnswerQueue::new(script.source);
        self.dest = AnswerQueue::new(script.dest);
    }

    // The codes that are known now.
    fn codes_now(&self) -> Codes
        ensures { result ≡ known_codes self.now }
    {
        Codes {
            source: known(self.face.codes.source, &self.source, self.codes.source),
            dest: known(self.face.codes.dest, &self.dest, self.codes.dest),
        }
    }
}

impl ScriptLink {
    ghost use Rattle.std.specs.Prelude.{◌≡◌, IfOk, OnErr, OnOk};
    ghost use Rattle.outside.specs.Event.{got_over, read_over};
    ghost use Rattle.outside.specs.Link.{NoneAbove};
    ghost use Rattle.outside.specs.declared.event.Event.{Event};
    ghost use Rattle.script_link.specs.Answers.{left_behind, next_of};
    ghost use Rattle.script_link.specs.Trace.{events_in, with_event};
    ghost use Rattle.script_link.specs.Link.{called, dest_asked, ended, got_counts, got_event, Goes, known_codes, link_failed, looked, noted, Offers, PlaysDest, PlaysSource, read_counts, read_event, saved_text, shut, source_asked, started, state_failed, stopped, unasked, unstarted, waited};

    // Adds an event, where there is one.
    fn note_some(&mut self, event: Option<Event>) -> Result<(), NoMemory>
        ensures ok { OnOk result (self.new ≡ record (self.old) { trace = with_event event self.old.counts self.old.trace }) }
        ensures err { OnErr result (self.new ≡ self.old) }
    {
        match event {
            Some(event) => self.note(event),
            None => Ok(()),
        }
    }

    // Adds what the next answer of the source tells.
    fn note_read(&mut self) -> Result<(), NoMemory>
        ensures ok { OnOk result (self.new ≡ record (self.old) { trace = with_event (read_event (next_of self.old.source) (read_over (events_in self.old.trace))) self.old.counts self.old.trace }) }
        ensures err { OnErr result (self.new ≡ self.old) }
    {
        let answer = self.source.next(self.alloc)?;
        let is_over = self.trace.is_read_over();
        self.note_some(told_by_source(answer, is_over))
    }

    // Adds what the next answer of the destination tells.
    fn note_got(&mut self) -> Result<(), NoMemory>
        ensures ok { OnOk result (self.new ≡ record (self.old) { trace = with_event (got_event (next_of self.old.dest) (got_over (events_in self.old.trace))) self.old.counts self.old.trace }) }
        ensures err { OnErr result (self.new ≡ self.old) }
    {
        let answer = self.dest.next(self.alloc)?;
        let is_over = self.trace.is_got_over();
        self.note_some(told_by_dest(answer, is_over))
    }

    // Counts what an answer of the source counts.
    fn count_read(&mut self, answer: &Polled)
        ensures counted { self.new ≡ record (self.old) { counts = read_counts answer.now self.old.counts } }
        ensures kept { NoneAbove self.old.counts self.new.counts }
    {
        match answer {
            Polled::NotYet => {
                self.counts.quiet_source = self.counts.quiet_source.saturating_add(1);
            }
            Polled::Failed => {
                self.counts.link_faults = self.counts.link_faults.saturating_add(1);
            }
            _ => {}
        }
    }

    // Counts what an answer of the destination counts.
    fn count_got(&mut self, answer: &Polled)
        ensures counted { self.new ≡ record (self.old) { counts = got_counts answer.now self.old.counts } }
        ensures kept { NoneAbove self.old.counts self.new.counts }
    {
        match answer {
            Polled::NotYet => {
                self.counts.quiet_dest = self.counts.quiet_dest.saturating_add(1);
            }
            Polled::Failed => {
                self.counts.link_faults = self.counts.link_faults.saturating_add(1);
            }
            _ => {}
        }
    }

    // Takes the next answer of the source.
    fn take_read(&mut self) -> Polled
        ensures given { result ≡ next_of self.old.source }
        ensures left { self.new ≡ record (self.old) { counts = read_counts (next_of self.old.source) self.old.counts; source = left_behind self.old.source } }
        ensures kept { NoneAbove self.old.counts self.new.counts }
    {
        let answer = self.source.take();
        self.count_read(&answer);
        answer
    }

    // Takes the next answer of the destination.
    fn take_got(&mut self) -> Polled
        ensures given { result ≡ next_of self.old.dest }
        ensures left { self.new ≡ record (self.old) { counts = got_counts (next_of self.old.dest) self.old.counts; dest = left_behind self.old.dest } }
        ensures kept { NoneAbove self.old.counts self.new.counts }
    {
        let answer = self.dest.take();
        self.count_got(&answer);
        answer
    }

    // Gives the next answer of the source, or fails.
    fn read(&mut self) -> Polled
        ensures plays { PlaysSource unasked self.old result self.new }
        ensures kept { NoneAbove self.old.counts self.new.counts }
    {
        if self.is_failing() {
            self.fail();
            return Polled::Failed;
        }
        if self.note_read().is_err() {
            return Polled::NoMemory;
        }
        self.take_read()
    }

    // Gives the next answer of the destination, or fails.
    fn get(&mut self) -> Polled
        ensures plays { PlaysDest unasked self.old result self.new }
        ensures kept { NoneAbove self.old.counts self.new.counts }
    {
        if self.is_failing() {
            self.fail();
            return Polled::Failed;
        }
        if self.note_got().is_err() {
            return Polled::NoMemory;
        }
        self.take_got()
    }

    // Gives the next answer of the source, or fails, and notes its kind.
    fn ask_source(&mut self) -> Polled
        ensures plays { PlaysSource source_asked self.old result self.new }
        ensures kept { NoneAbove self.old.counts self.new.counts }
    {
        let answer = self.read();
        self.face.source_poll = kind_of_poll(&answer);
        answer
    }

    // Gives the next answer of the destination, or fails, and notes its kind.
    fn ask_dest(&mut self) -> Polled
        ensures plays { PlaysDest dest_asked self.old result self.new }
        ensures kept { NoneAbove self.old.counts self.new.counts }
    {
        let answer = self.get();
        self.face.dest_poll = kind_of_poll(&answer);
        answer
    }

    // The text of the state store, or a fault.
    fn load(&mut self, alloc: Global) -> Result<Bytes, Fault>
        ensures text { IfOk result (λ text. text ≡ saved_text self.old) }
        ensures goes { Goes result self.old (called self.old) (state_failed (called self.old)) (called self.old) self.new }
        ensures kept { NoneAbove self.old.counts self.new.counts }
    {
        if self.is_failing() {
            return Err(self.fail_state());
        }
        Ok(self.trace.stored(alloc)?)
    }

    // Saves a text, or fails.
    fn save(&mut self, text: &[u8]) -> Result<(), Fault>
        ensures goes { Goes result self.old (noted (Event.Saved text.now) (called self.old)) (state_failed (called self.old)) (called self.old) self.new }
        ensures kept { NoneAbove self.old.counts self.new.counts }
    {
        if self.is_failing() {
            return Err(self.fail_state());
        }
        let copy = Bytes::copy_of(self.alloc, text)?;
        Ok(self.note(Event::Saved(copy))?)
    }

    // Starts the children of the next script, or fails.
    fn begin(&mut self, plan: &AttemptPlan) -> Result<(), Fault>
        ensures goes { Goes result self.old (started plan.now (called (unstarted self.old))) (link_failed (called (unstarted self.old))) (called (unstarted self.old)) self.new }
        ensures kept { NoneAbove self.old.counts self.new.counts }
    {
        self.unstart();
        if self.is_failing() {
            return Err(self.fail());
        }
        let copy = Boxed::new(self.alloc, plan.copy(self.alloc)?)?;
        self.note(Event::Started(copy))?;
        let script = self.take_script();
        self.run(script);
        Ok(())
    }

    // Gives a line to the destination, or fails.
    fn offer(&mut self, line: &[u8]) -> Offered
        ensures offers { Offers result line.now self.old self.new }
        ensures kept { NoneAbove self.old.counts self.new.counts }
    {
        if self.is_failing() {
            self.fail();
            return Offered::Failed;
        }
        let Ok(copy) = Bytes::copy_of(self.alloc, line) else {
            return Offered::NoMemory;
        };
        match self.note(Event::Given(copy)) {
            Ok(()) => Offered::Taken,
            Err(NoMemory) => Offered::NoMemory,
        }
    }

    // Closes the destination's input, or fails.
    fn close(&mut self) -> Result<(), Fault>
        ensures goes { Goes result self.old (noted Event.Closed (shut (called self.old))) (link_failed (shut (called self.old))) (shut (called self.old)) self.new }
        ensures kept { NoneAbove self.old.counts self.new.counts }
    {
        self.face.input_open = false;
        if self.is_failing() {
            return Err(self.fail());
        }
        Ok(self.note(Event::Closed)?)
    }

    // Adds the end of both children, where they run.
    fn note_end(&mut self) -> Result<(), NoMemory>
        ensures ok { OnOk result (self.new ≡ ended self.old) }
        ensures err { OnErr result (self.new ≡ self.old) }
    {
        if self.face.running {
            let codes = self.codes_now();
            self.note(Event::Ended(codes))
        } else {
            Ok(())
        }
    }

    // Ends both children, or fails. They do not run afterwards.
    fn end(&mut self) -> Result<(), Fault>
        ensures goes { Goes result self.old (stopped (ended (called self.old))) (stopped (link_failed (called self.old))) (stopped (called self.old)) self.new }
        ensures kept { NoneAbove self.old.counts self.new.counts }
    {
        let ended = self.end_running();
        self.face.running = false;
        self.face.input_open = false;
        ended
    }

    // Ends both children, or fails.
    fn end_running(&mut self) -> Result<(), Fault>
        ensures goes { Goes result self.old (ended (called self.old)) (link_failed (called self.old)) (called self.old) self.new }
        ensures kept { NoneAbove self.old.counts self.new.counts }
    {
        if self.is_failing() {
            return Err(self.fail());
        }
        Ok(self.note_end()?)
    }

    // Looks at the codes.
    fn look(&mut self) -> Codes
        ensures known { result ≡ known_codes self.old }
        ensures looked { self.new ≡ looked self.old }
        ensures kept { NoneAbove self.old.counts self.new.counts }
    {
        let codes = self.codes_now();
        if codes.source.is_none() || codes.dest.is_none() {
            self.counts.quiet_codes = self.counts.quiet_codes.saturating_add(1);
        }
        self.face.codes = codes;
        codes
    }

    // Counts a return of a wait.
    fn rest(&mut self)
        ensures rests { self.new ≡ waited self.old }
        ensures kept { NoneAbove self.old.counts self.new.counts }
    {
        self.counts.waits = self.counts.waits.saturating_add(1);
    }
}

impl Link for ScriptLink {
    ghost use Rattle.std.specs.Prelude.{◌≡◌, false, IfOk, IfSome, IsErrOf, IsTrue};
    ghost use Rattle.basics.specs.Told.{Rose, RoseIf};
    ghost use Rattle.outside.specs.Event.{stored};
    ghost use Rattle.outside.specs.declared.event.Event.{Event};
    ghost use Rattle.outside.specs.Link.{AddsOn, GotAdds, Grew, KeepsCodes, OfferAdds, QuietCodes, QuietOffer, QuietPoll, ReadAdds, StopAdds, kind_of, own_events, started_face, stopped_face};
    ghost use Rattle.script_link.specs.Link.{called, dest_asked, ended, Goes, known_codes, link_failed, looked, noted, Offers, PlaysDest, PlaysSource, saved_text, seen_of, shut, source_asked, started, state_failed, stopped, unstarted, waited};

    ghost seen = { seen_of };

    fn load_states(&mut self, alloc: Global, _: &str) -> Result<Bytes, Fault>
        ensures grew { Grew (seen_of self.old) (seen_of self.new) }
        ensures text { IfOk result (λ text. IfSome (own_events (seen_of self.old)) (λ events. text ≡ stored events)) }
        ensures events { own_events (seen_of self.new) ≡ own_events (seen_of self.old) }
        ensures face { (seen_of self.new).face ≡ (seen_of self.old).face }
        ensures faults { RoseIf (IsErrOf result Fault.Failed) (seen_of self.old).counts.state_faults (seen_of self.new).counts.state_faults }
        ensures counts { (seen_of self.new).counts ≡ record ((seen_of self.old).counts) { state_faults = (seen_of self.new).counts.state_faults } }
        ensures saved { IfOk result (λ text. text ≡ saved_text self.old) }
        ensures goes { Goes result self.old (called self.old) (state_failed (called self.old)) (called self.old) self.new }
    {
        self.load(alloc)
    }

    fn save_states(&mut self, _: &str, text: &[u8]) -> Result<(), Fault>
        ensures grew { Grew (seen_of self.old) (seen_of self.new) }
        ensures events { AddsOn result (Event.Saved text.now) (own_events (seen_of self.old)) (own_events (seen_of self.new)) }
        ensures face { (seen_of self.new).face ≡ (seen_of self.old).face }
        ensures faults { RoseIf (IsErrOf result Fault.Failed) (seen_of self.old).counts.state_faults (seen_of self.new).counts.state_faults }
        ensures counts { (seen_of self.new).counts ≡ record ((seen_of self.old).counts) { state_faults = (seen_of self.new).counts.state_faults } }
        ensures goes { Goes result self.old (noted (Event.Saved text.now) (called self.old)) (state_failed (called self.old)) (called self.old) self.new }
    {
        self.save(text)
    }

    fn start(&mut self, plan: &AttemptPlan) -> Result<(), Fault>
        ensures grew { Grew (seen_of self.old) (seen_of self.new) }
        ensures events { AddsOn result (Event.Started plan.now) (own_events (seen_of self.old)) (own_events (seen_of self.new)) }
        ensures face { (seen_of self.new).face ≡ started_face result (seen_of self.old).face }
        ensures faults { RoseIf (IsErrOf result Fault.Failed) (seen_of self.old).counts.link_faults (seen_of self.new).counts.link_faults }
        ensures counts { (seen_of self.new).counts ≡ record ((seen_of self.old).counts) { link_faults = (seen_of self.new).counts.link_faults } }
        ensures goes { Goes result self.old (started plan.now (called (unstarted self.old))) (link_failed (called (unstarted self.old))) (called (unstarted self.old)) self.new }
    {
        self.begin(plan)
    }

    fn poll_source(&mut self) -> Polled
        ensures grew { Grew (seen_of self.old) (seen_of self.new) }
        ensures events { ReadAdds result (own_events (seen_of self.old)) (own_events (seen_of self.new)) }
        ensures face { (seen_of self.new).face ≡ record ((seen_of self.old).face) { source_poll = kind_of result } }
        ensures quiet { QuietPoll result (seen_of self.old).counts.quiet_source (seen_of self.new).counts.quiet_source }
        ensures faults { RoseIf (result ≡ Polled.Failed) (seen_of self.old).counts.link_faults (seen_of self.new).counts.link_faults }
        ensures counts { (seen_of self.new).counts ≡ record ((seen_of self.old).counts) { link_faults = (seen_of self.new).counts.link_faults; quiet_source = (seen_of self.new).counts.quiet_source } }
        ensures plays { PlaysSource source_asked self.old result self.new }
    {
        self.ask_source()
    }

    fn poll_dest(&mut self) -> Polled
        ensures grew { Grew (seen_of self.old) (seen_of self.new) }
        ensures events { GotAdds result (own_events (seen_of self.old)) (own_events (seen_of self.new)) }
        ensures face { (seen_of self.new).face ≡ record ((seen_of self.old).face) { dest_poll = kind_of result } }
        ensures quiet { QuietPoll result (seen_of self.old).counts.quiet_dest (seen_of self.new).counts.quiet_dest }
        ensures faults { RoseIf (result ≡ Polled.Failed) (seen_of self.old).counts.link_faults (seen_of self.new).counts.link_faults }
        ensures counts { (seen_of self.new).counts ≡ record ((seen_of self.old).counts) { link_faults = (seen_of self.new).counts.link_faults; quiet_dest = (seen_of self.new).counts.quiet_dest } }
        ensures plays { PlaysDest dest_asked self.old result self.new }
    {
        self.ask_dest()
    }

    fn offer_dest(&mut self, line: &[u8]) -> Offered
        ensures grew { Grew (seen_of self.old) (seen_of self.new) }
        ensures events { OfferAdds result line.now (own_events (seen_of self.old)) (own_events (seen_of self.new)) }
        ensures face { (seen_of self.new).face ≡ (seen_of self.old).face }
        ensures quiet { QuietOffer result (seen_of self.old).counts.quiet_source (seen_of self.new).counts.quiet_source }
        ensures faults { RoseIf (result ≡ Offered.Failed) (seen_of self.old).counts.link_faults (seen_of self.new).counts.link_faults }
        ensures counts { (seen_of self.new).counts ≡ record ((seen_of self.old).counts) { link_faults = (seen_of self.new).counts.link_faults; quiet_source = (seen_of self.new).counts.quiet_source } }
        ensures offers { Offers result line.now self.old self.new }
    {
        self.offer(line)
    }

    fn close_dest(&mut self) -> Result<(), Fault>
        ensures grew { Grew (seen_of self.old) (seen_of self.new) }
        ensures events { AddsOn result Event.Closed (own_events (seen_of self.old)) (own_events (seen_of self.new)) }
        ensures face { (seen_of self.new).face ≡ record ((seen_of self.old).face) { input_open = false } }
        ensures faults { RoseIf (IsErrOf result Fault.Failed) (seen_of self.old).counts.link_faults (seen_of self.new).counts.link_faults }
        ensures counts { (seen_of self.new).counts ≡ record ((seen_of self.old).counts) { link_faults = (seen_of self.new).counts.link_faults } }
        ensures goes { Goes result self.old (noted Event.Closed (shut (called self.old))) (link_failed (shut (called self.old))) (shut (called self.old)) self.new }
    {
        self.close()
    }

    fn exit_codes(&mut self) -> Codes
        ensures grew { Grew (seen_of self.old) (seen_of self.new) }
        ensures kept { KeepsCodes (seen_of self.old).face.codes result }
        ensures events { own_events (seen_of self.new) ≡ own_events (seen_of self.old) }
        ensures face { (seen_of self.new).face ≡ record ((seen_of self.old).face) { codes = result } }
        ensures quiet { QuietCodes result (seen_of self.old).counts.quiet_codes (seen_of self.new).counts.quiet_codes }
        ensures counts { (seen_of self.new).counts ≡ record ((seen_of self.old).counts) { quiet_codes = (seen_of self.new).counts.quiet_codes } }
        ensures known { result ≡ known_codes self.old }
        ensures looked { self.new ≡ looked self.old }
    {
        self.look()
    }

    fn stop(&mut self) -> Result<(), Fault>
        ensures grew { Grew (seen_of self.old) (seen_of self.new) }
        ensures events { StopAdds result (seen_of self.old).face.running (seen_of self.old).face.codes (own_events (seen_of self.old)) (own_events (seen_of self.new)) }
        ensures face { (seen_of self.new).face ≡ stopped_face (seen_of self.old).face }
        ensures faults { RoseIf (IsErrOf result Fault.Failed) (seen_of self.old).counts.link_faults (seen_of self.new).counts.link_faults }
        ensures counts { (seen_of self.new).counts ≡ record ((seen_of self.old).counts) { link_faults = (seen_of self.new).counts.link_faults } }
        ensures goes { Goes result self.old (stopped (ended (called self.old))) (stopped (link_failed (called self.old))) (stopped (called self.old)) self.new }
    {
        self.end()
    }

    fn wait(&mut self)
        ensures grew { Grew (seen_of self.old) (seen_of self.new) }
        ensures events { own_events (seen_of self.new) ≡ own_events (seen_of self.old) }
        ensures face { (seen_of self.new).face ≡ (seen_of self.old).face }
        ensures waited { Rose (seen_of self.old).counts.waits (seen_of self.new).counts.waits }
        ensures counts { (seen_of self.new).counts ≡ record ((seen_of self.old).counts) { waits = (seen_of self.new).counts.waits } }
        ensures rests { self.new ≡ waited self.old }
    {
        self.rest();
    }
}
