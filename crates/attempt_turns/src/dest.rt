// The destination's side of a turn.
ghost use Rattle.std.specs.Prelude.{◌≡◌, ◌+◌, ◌<◌, ◌≤◌, ◌++◌, [], ◌∷◌, false, option_map, IfErr, IfOk, Ok, OnErr, OnOk, codes};
ghost use Rattle.basics.specs.Told.{told_more};
ghost use Rattle.outside.specs.Link.{Grew, own_events};
ghost use Rattle.outside.specs.declared.event.Event.TheVariants as event;
ghost use Rattle.state_kinds.specs.Changes.{put_into};
ghost use Rattle.state_kinds.specs.Saved.{Saved};
ghost use Rattle.sync_ledger.specs.declared.notes.TheConstants.{MOST_LINES as most_lines};
ghost use Rattle.attempt_turns.specs.Ends.{Ends, TurnCause, WasQuietBack};
ghost use Rattle.attempt_turns.specs.Heard.{BackEnds, HeardBack, HearsBack, RefusedBack, SaveEnds};
ghost use Rattle.attempt_turns.specs.History.{Ran};
ghost use Rattle.attempt_turns.specs.Silence.{Fewer, Rested, Steps, left};
ghost use Rattle.attempt_turns.specs.Worker.{HasGot, Live, Owes, Stands};

use crate::{Moved, Worker, say_line};
use airbyte_message::{StateMsg, StateObject};
use basics::{Bytes, NoMemory};
use outside::{Breach, Desk, Fault, Link, Polled, Side, Status};
use state_kinds::{SavedSet, write_store};
use std::alloc::Global;
use sync_ledger::{Echoed, LedgerFault, MOST_LINES};

// What a line is that came back.
fn hear_back(w: &mut Worker, line: &Bytes) -> Result<Echoed, Status>
    requires { w.old.got_lines ≤ most_lines }
    ensures ok { IfOk result (λ answer. HearsBack w.old line.now answer w.new) }
    ensures err { OnErr result (w.new ≡ w.old) }
    ensures end { IfErr result (λ end. RefusedBack end w.old line.now) }
    ensures kept { w.new ≡ record (w.old) { ledger = w.new.ledger; got_lines = w.new.got_lines } }
    ensures ids { w.new.ledger.ids ≡ w.old.ledger.ids }
    ensures lines { w.new.ledger.lines ≡ w.old.ledger.lines }
{
    match w.ledger.dest_line(line.as_slice()) {
        Ok(answer) => {
            w.got_lines += 1;
            Ok(answer)
        }
        Err(LedgerFault::Breach(breach)) => Err(Status::DestBreach {
            breach,
            line: w.got_lines + 1,
        }),
        Err(LedgerFault::NoMemory) => Err(Status::NoMemory),
    }
}

// A line that came back is heard, and what is to be said of it is said. It gives the state that it takes.
fn take_got<K: Desk>(desk: &mut K, w: &mut Worker, line: &Bytes) -> Result<Option<StateMsg>, Status>
    requires { w.old.got_lines ≤ most_lines }
    ensures ok { IfOk result (λ taken. HeardBack w.old line.now taken w.new (K.seen desk.old) (K.seen desk.new)) }
    ensures err { IfErr result (λ end. BackEnds end w.old line.now w.new (K.seen desk.old) (K.seen desk.new)) }
    ensures kept { w.new ≡ record (w.old) { ledger = w.new.ledger; got_lines = w.new.got_lines } }
    ensures ids { w.new.ledger.ids ≡ w.old.ledger.ids }
    ensures lines { w.new.ledger.lines ≡ w.old.ledger.lines }
{
    match hear_back(w, line) {
        Ok(Echoed::State(taken)) => Ok(Some(taken)),
        Ok(Echoed::Nothing) => Ok(None),
        Ok(Echoed::Say(words)) => {
            say_line(desk, &words)?;
            Ok(None)
        }
        Ok(Echoed::ConfigError(words)) => {
            say_line(desk, &words)?;
            Err(Status::ConfigError {
                side: Side::Dest,
                line: w.got_lines,
            })
        }
        Err(end) => Err(end),
    }
}

// The line that says that a state was saved.
fn saved_line(alloc: Global, object: &StateObject) -> Result<Bytes, NoMemory>
    ensures { IfOk result (λ line. line ≡ codes "saved " ++ object.now) }
{
    let object = object.as_slice();
    let mut line = Bytes::with_capacity(alloc, object.len().saturating_add(6))?;
    line.extend(b"saved ")?;
    line.extend(object)?;
    Ok(line)
}

// Puts a state that a line took. The set has its stream and is of its kind, so it takes it.
fn put_taken(set: &mut SavedSet, taken: StateMsg)
    ensures { (now : Saved) → put_into taken set.old ≡ Ok now → set.new ≡ now }
{
    let _ = set.put(taken);
}

// Saves the text of a set.
fn save_text<L: Link>(link: &mut L, store: &str, text: &Bytes) -> Result<(), Status>
    ensures grew { Grew (L.seen link.old) (L.seen link.new) }
    ensures face { (L.seen link.new).face ≡ (L.seen link.old).face }
    ensures ok { OnOk result (own_events (L.seen link.new) ≡ told_more (event.Saved text.now ∷ []) (own_events (L.seen link.old))) }
    ensures err { IfErr result (λ end. SaveEnds end text.now (L.seen link.old) (L.seen link.new)) }
{
    match link.save_states(store, text.as_slice()) {
        Ok(()) => Ok(()),
        Err(Fault::Failed) => Err(Status::StateFault),
        Err(Fault::NoMemory) => Err(Status::NoMemory),
    }
}

// Saves the set with the state that a line took, and says that.
fn save_taken<K: Desk, L: Link>(
    alloc: Global,
    desk: &mut K,
    link: &mut L,
    w: &mut Worker,
    store: &str,
    taken: StateMsg,
) -> Result<(), Status>
    requires live { Live w.old (L.seen link.old) }
    ensures ok { OnOk result (Ran (Owes taken w.old) (Stands w.new) (L.seen link.old) (L.seen link.new) (K.seen desk.old) (K.seen desk.new)) }
    ensures live { OnOk result (Live w.new (L.seen link.new)) }
    ensures err { IfErr result (λ end. Ran (Owes taken w.old) (Ends end (L.seen link.new).face w.new) (L.seen link.old) (L.seen link.new) (K.seen desk.old) (K.seen desk.new)) }
    ensures cause { IfErr result (λ end. TurnCause end (L.seen link.old) (L.seen link.new) (K.seen desk.old) (K.seen desk.new)) }
    ensures kept { w.new ≡ record (w.old) { set = w.new.set } }
    ensures face { (L.seen link.new).face ≡ (L.seen link.old).face }
{
    let Ok(line) = saved_line(alloc, taken.object()) else {
        return Err(Status::NoMemory);
    };
    put_taken(&mut w.set, taken);
    let Ok(text) = write_store(alloc, &w.set) else {
        return Err(Status::NoMemory);
    };
    match save_text(link, store, &text) {
        Ok(()) => say_line(desk, &line),
        Err(end) => Err(end),
    }
}

// A line that came back is heard; what it takes is saved, and what is to be said of it is said.
fn take_back<K: Desk, L: Link>(
    alloc: Global,
    desk: &mut K,
    link: &mut L,
    w: &mut Worker,
    store: &str,
    line: &Bytes,
) -> Result<(), Status>
    requires few { w.old.got_lines ≤ most_lines }
    requires going { w.old.got_over ≡ false }
    requires live { Live w.old (L.seen link.old) }
    ensures ok { OnOk result (Ran (HasGot line.now w.old) (Stands w.new) (L.seen link.old) (L.seen link.new) (K.seen desk.old) (K.seen desk.new)) }
    ensures live { OnOk result (Live w.new (L.seen link.new)) }
    ensures err { IfErr result (λ end. Ran (HasGot line.now w.old) (Ends end (L.seen link.new).face w.new) (L.seen link.old) (L.seen link.new) (K.seen desk.old) (K.seen desk.new)) }
    ensures cause { IfErr result (λ end. TurnCause end (L.seen link.old) (L.seen link.new) (K.seen desk.old) (K.seen desk.new)) }
    ensures kept { w.new ≡ record (w.old) { ledger = w.new.ledger; set = w.new.set; got_lines = w.new.got_lines } }
    ensures ids { w.new.ledger.ids ≡ w.old.ledger.ids }
    ensures fewer { OnOk result (left w.new < left w.old) }
    ensures face { (L.seen link.new).face ≡ (L.seen link.old).face }
{
    match take_got(desk, w, line) {
        Ok(Some(taken)) => save_taken(alloc, desk, link, w, store, taken),
        Ok(None) => Ok(()),
        Err(end) => Err(end),
    }
}

/// Polls the destination once. Where it gives a line, that is heard. A state that the line takes enters the saved set, the state store
/// is saved, and then it is said, before this returns.
pub fn read_dest<K: Desk, L: Link>(
    alloc: Global,
    desk: &mut K,
    link: &mut L,
    w: &mut Worker,
    store: &str,
) -> Result<Moved, Status>
    requires going { w.old.got_over ≡ false }
    requires live { Live w.old (L.seen link.old) }
    ensures ok { IfOk result (λ moved. Steps moved (Stands w.old) (Stands w.new) (L.seen link.old) (L.seen link.new) (K.seen desk.old) (K.seen desk.new)) }
    ensures live { OnOk result (Live w.new (L.seen link.new)) }
    ensures err { IfErr result (λ end. Ran (Stands w.old) (Ends end (L.seen link.new).face w.new) (L.seen link.old) (L.seen link.new) (K.seen desk.old) (K.seen desk.new)) }
    ensures cause { IfErr result (λ end. TurnCause end (L.seen link.old) (L.seen link.new) (K.seen desk.old) (K.seen desk.new)) }
    ensures quiet { IfOk result (λ moved. WasQuietBack moved (L.seen link.old) (L.seen link.new)) }
    ensures rested { IfOk result (λ moved. Rested moved w.old w.new) }
    ensures fewer { IfOk result (λ moved. Fewer moved w.old w.new) }
    ensures kept { w.new ≡ record (w.old) { ledger = w.new.ledger; set = w.new.set; got_lines = w.new.got_lines; got_over = w.new.got_over } }
    ensures going { OnErr result (w.new.got_over ≡ false) }
    ensures ids { w.new.ledger.ids ≡ w.old.ledger.ids }
    ensures codes { (L.seen link.new).face.codes ≡ (L.seen link.old).face.codes }
    ensures running { (L.seen link.new).face.running ≡ (L.seen link.old).face.running }
{
    if w.got_lines > MOST_LINES {
        return Err(Status::TooManyLines);
    }
    match link.poll_dest() {
        Polled::Line(line) => match take_back(alloc, desk, link, w, store, &line) {
            Ok(()) => Ok(Moved::Yes),
            Err(end) => Err(end),
        },
        Polled::Torn(line) => match take_back(alloc, desk, link, w, store, &line) {
            Ok(()) => Ok(Moved::Yes),
            Err(end) => Err(end),
        },
        Polled::TooLong => Err(Status::DestBreach {
            breach: Breach::TooLong,
            line: w.got_lines + 1,
        }),
        Polled::NotYet => Ok(Moved::No),
        Polled::End => {
            w.got_over = true;
            Ok(Moved::Yes)
        }
        Polled::Failed => Err(Status::LinkFault),
        Polled::NoMemory => Err(Status::NoMemory),
    }
}
