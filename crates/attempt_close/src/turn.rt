// Turns.
ghost use Rattle.std.specs.Prelude.{◌≡◌, false, true, is_some, IfErr, IfOk, OnOk};
ghost use Rattle.basics.specs.Told.{Rose};
ghost use Rattle.catalog.specs.Reading.{ids_of};
ghost use Rattle.outside.specs.Desk.{DeskSeen};
ghost use Rattle.outside.specs.Link.{own_events};
ghost use Rattle.attempt_turns.specs.Ends.{Ends, TurnCause, WasQuiet, WasQuietBack};
ghost use Rattle.attempt_turns.specs.History.{Ran};
ghost use Rattle.attempt_turns.specs.Silence.{Fewer, Rested, Steps};
ghost use Rattle.attempt_turns.specs.Worker.{Live, Stands};
ghost use Rattle.attempt_close.specs.Turns.{Fits, GoesOnSo, HoldsCompletion, IsSettled, QuietSides, QuietSource, SameEnds, Settles, Turned, either as by_either};

use crate::close::{offer_completion, settle};
use crate::codes::learn_codes;
use attempt_turns::{Moved, Worker, offer_held, read_dest, read_source};
use catalog::Configured;
use outside::{Codes, Desk, Fault, Link, Status};
use std::alloc::Global;

// Whether either step brought something.
fn either(first: Moved, next: Moved) -> Moved
    ensures { result ≡ by_either first next }
{
    match first {
        Moved::Yes => Moved::Yes,
        Moved::No => next,
    }
}

// The destination's side of a turn.
fn dest_side<K: Desk, L: Link>(
    alloc: Global,
    desk: &mut K,
    link: &mut L,
    w: &mut Worker,
    store: &str,
) -> Result<Moved, Status>
    requires live { Live w.old (L.seen link.old) }
    ensures ok { IfOk result (λ moved. Steps moved (Stands w.old) (Stands w.new) (L.seen link.old) (L.seen link.new) (K.seen desk.old) (K.seen desk.new)) }
    ensures live { OnOk result (Live w.new (L.seen link.new)) }
    ensures err { IfErr result (λ end. Ran (Stands w.old) (Ends end (L.seen link.new).face w.new) (L.seen link.old) (L.seen link.new) (K.seen desk.old) (K.seen desk.new)) }
    ensures cause { IfErr result (λ end. TurnCause end (L.seen link.old) (L.seen link.new) (K.seen desk.old) (K.seen desk.new)) }
    ensures quiet { w.old.got_over ≡ false → IfOk result (λ moved. WasQuietBack moved (L.seen link.old) (L.seen link.new)) }
    ensures rested { IfOk result (λ moved. Rested moved w.old w.new) }
    ensures fewer { IfOk result (λ moved. Fewer moved w.old w.new) }
    ensures kept { w.new ≡ record (w.old) { ledger = w.new.ledger; set = w.new.set; got_lines = w.new.got_lines; got_over = w.new.got_over } }
    ensures ids { w.new.ledger.ids ≡ w.old.ledger.ids }
    ensures over { w.new.got_over ≡ false → w.old.got_over ≡ false }
    ensures codes { (L.seen link.new).face.codes ≡ (L.seen link.old).face.codes }
    ensures running { (L.seen link.new).face.running ≡ (L.seen link.old).face.running }
{
    if w.got_over {
        return Ok(Moved::No);
    }
    read_dest(alloc, desk, link, w, store)
}

// A line that is held is offered.
fn offer<L: Link>(link: &mut L, w: &mut Worker) -> Result<Moved, Status>
    requires held { is_some w.old.held ≡ true }
    requires opened { w.old.closed ≡ false }
    requires own { w.old.is_completing ≡ true → HoldsCompletion w.old.ledger.ids w.old }
    requires live { Live w.old (L.seen link.old) }
    ensures ok { (desk : DeskSeen) → IfOk result (λ moved. Steps moved (Stands w.old) (Stands w.new) (L.seen link.old) (L.seen link.new) desk desk) }
    ensures live { OnOk result (Live w.new (L.seen link.new)) }
    ensures err { (desk : DeskSeen) → IfErr result (λ end. Ran (Stands w.old) (Ends end (L.seen link.new).face w.new) (L.seen link.old) (L.seen link.new) desk desk) }
    ensures cause { (desk : DeskSeen) → IfErr result (λ end. TurnCause end (L.seen link.old) (L.seen link.new) desk desk) }
    ensures quiet { IfOk result (λ moved. WasQuiet moved (L.seen link.old) (L.seen link.new)) }
    ensures rested { IfOk result (λ moved. Rested moved w.old w.new) }
    ensures fewer { IfOk result (λ moved. Fewer moved w.old w.new) }
    ensures kept { w.new ≡ record (w.old) { ledger = w.new.ledger; held = w.new.held; is_completing = w.new.is_completing } }
    ensures own_line { w.new.is_completing ≡ true → w.new ≡ w.old }
    ensures ids { w.new.ledger.ids ≡ w.old.ledger.ids }
    ensures codes { (L.seen link.new).face.codes ≡ (L.seen link.old).face.codes }
    ensures running { (L.seen link.new).face.running ≡ (L.seen link.old).face.running }
{
    if w.is_completing {
        offer_completion(link, w)
    } else {
        offer_held(link, w)
    }
}

// The source's side of a turn. Nothing is read or given behind the close of the destination's input.
fn source_side<K: Desk, L: Link>(
    desk: &mut K,
    link: &mut L,
    w: &mut Worker,
) -> Result<Moved, Status>
    requires fits { Fits w.old.ledger.ids w.old (L.seen link.old).face.codes }
    requires live { Live w.old (L.seen link.old) }
    ensures ok { IfOk result (λ moved. Steps moved (Stands w.old) (Stands w.new) (L.seen link.old) (L.seen link.new) (K.seen desk.old) (K.seen desk.new)) }
    ensures live { OnOk result (Live w.new (L.seen link.new)) }
    ensures err { IfErr result (λ end. Ran (Stands w.old) (Ends end (L.seen link.new).face w.new) (L.seen link.old) (L.seen link.new) (K.seen desk.old) (K.seen desk.new)) }
    ensures cause { IfErr result (λ end. TurnCause end (L.seen link.old) (L.seen link.new) (K.seen desk.old) (K.seen desk.new)) }
    ensures quiet { IsSettled w.old (L.seen link.old).face.codes → IfOk result (λ moved. QuietSource moved w.old (L.seen link.old) (L.seen link.new)) }
    ensures rested { IfOk result (λ moved. Rested moved w.old w.new) }
    ensures fewer { IfOk result (λ moved. Fewer moved w.old w.new) }
    ensures fits { OnOk result (Fits w.old.ledger.ids w.new (L.seen link.new).face.codes) }
    ensures kept { w.new ≡ record (w.old) { ledger = w.new.ledger; held = w.new.held; is_completing = w.new.is_completing; read_over = w.new.read_over } }
    ensures ids { w.new.ledger.ids ≡ w.old.ledger.ids }
    ensures codes { (L.seen link.new).face.codes ≡ (L.seen link.old).face.codes }
    ensures running { (L.seen link.new).face.running ≡ (L.seen link.old).face.running }
{
    if w.closed {
        return Ok(Moved::No);
    }
    if w.held.is_some() {
        return offer(link, w);
    }
    if w.read_over {
        return Ok(Moved::No);
    }
    read_source(desk, link, w)
}

// Both sides of a turn.
fn both_sides<K: Desk, L: Link>(
    alloc: Global,
    desk: &mut K,
    link: &mut L,
    w: &mut Worker,
    store: &str,
) -> Result<Moved, Status>
    requires fits { Fits w.old.ledger.ids w.old (L.seen link.old).face.codes }
    requires live { Live w.old (L.seen link.old) }
    ensures ok { IfOk result (λ moved. Steps moved (Stands w.old) (Stands w.new) (L.seen link.old) (L.seen link.new) (K.seen desk.old) (K.seen desk.new)) }
    ensures live { OnOk result (Live w.new (L.seen link.new)) }
    ensures err { IfErr result (λ end. Ran (Stands w.old) (Ends end (L.seen link.new).face w.new) (L.seen link.old) (L.seen link.new) (K.seen desk.old) (K.seen desk.new)) }
    ensures cause { IfErr result (λ end. TurnCause end (L.seen link.old) (L.seen link.new) (K.seen desk.old) (K.seen desk.new)) }
    ensures quiet { IsSettled w.old (L.seen link.old).face.codes → IfOk result (λ moved. QuietSides moved w.old (L.seen link.old) (L.seen link.new)) }
    ensures rested { IfOk result (λ moved. Rested moved w.old w.new) }
    ensures fewer { IfOk result (λ moved. Fewer moved w.old w.new) }
    ensures fits { OnOk result (Fits w.old.ledger.ids w.new (L.seen link.new).face.codes) }
    ensures kept { SameEnds w.old w.new }
    ensures codes { (L.seen link.new).face.codes ≡ (L.seen link.old).face.codes }
    ensures running { (L.seen link.new).face.running ≡ (L.seen link.old).face.running }
{
    match dest_side(alloc, desk, link, w, store) {
        Ok(got) => match source_side(desk, link, w) {
            Ok(sent) => Ok(either(got, sent)),
            Err(end) => Err(end),
        },
        Err(end) => Err(end),
    }
}

// Writes out what was said, and waits.
fn rest<K: Desk, L: Link>(desk: &mut K, link: &mut L, w: &Worker) -> Result<(), Status>
    requires { Live w.now (L.seen link.old) }
    ensures ok { OnOk result (Steps Moved.No (Stands w.now) (Stands w.now) (L.seen link.old) (L.seen link.new) (K.seen desk.old) (K.seen desk.new)) }
    ensures err { IfErr result (λ end. Ran (Stands w.now) (Ends end (L.seen link.new).face w.now) (L.seen link.old) (L.seen link.new) (K.seen desk.old) (K.seen desk.new)) }
    ensures cause { IfErr result (λ end. TurnCause end (L.seen link.old) (L.seen link.new) (K.seen desk.old) (K.seen desk.new)) }
    ensures waited { OnOk result (Rose (L.seen link.old).counts.waits (L.seen link.new).counts.waits) }
    ensures events { own_events (L.seen link.new) ≡ own_events (L.seen link.old) }
    ensures face { (L.seen link.new).face ≡ (L.seen link.old).face }
{
    match desk.flush() {
        Ok(()) => {
            link.wait();
            Ok(())
        }
        Err(Fault::Failed) => Err(Status::SayFault),
        Err(Fault::NoMemory) => Err(Status::NoMemory),
    }
}

// Behind the two sides of a turn and the look for codes: where these brought something what follows from it is done, and else the turn
// waits.
fn close_turn<K: Desk, L: Link>(
    alloc: Global,
    desk: &mut K,
    link: &mut L,
    w: &mut Worker,
    configured: &Configured,
    known: Codes,
    moved: Moved,
) -> Result<(), Status>
    requires known { known ≡ (L.seen link.old).face.codes }
    requires fits { Fits (ids_of configured.now) w.old (L.seen link.old).face.codes }
    requires live { Live w.old (L.seen link.old) }
    ensures ok { OnOk result (GoesOnSo moved (Stands w.old) (Stands w.new) (L.seen link.old) (L.seen link.new) (K.seen desk.old) (K.seen desk.new)) }
    ensures live { OnOk result (Live w.new (L.seen link.new)) }
    ensures err { IfErr result (λ end. Ran (Stands w.old) (Ends end (L.seen link.new).face w.new) (L.seen link.old) (L.seen link.new) (K.seen desk.old) (K.seen desk.new)) }
    ensures cause { IfErr result (λ end. TurnCause end (L.seen link.old) (L.seen link.new) (K.seen desk.old) (K.seen desk.new)) }
    ensures settled { OnOk result (Settles moved (ids_of configured.now) w.old w.new (L.seen link.old) (L.seen link.new)) }
    ensures number { w.new.number ≡ w.old.number }
    ensures codes { (L.seen link.new).face.codes ≡ (L.seen link.old).face.codes }
    ensures running { (L.seen link.new).face.running ≡ (L.seen link.old).face.running }
{
    match moved {
        Moved::Yes => match settle(alloc, link, w, configured, known) {
            Ok(()) => Ok(()),
            Err(end) => Err(end),
        },
        Moved::No => match rest(desk, link, w) {
            Ok(()) => Ok(()),
            Err(end) => Err(end),
        },
    }
}

/// One turn: the destination is polled, a line is offered or the source is polled, and codes are looked for. Where that brought nothing
/// the turn waits.
pub fn turn<K: Desk, L: Link>(
    alloc: Global,
    desk: &mut K,
    link: &mut L,
    w: &mut Worker,
    configured: &Configured,
    store: &str,
    known: &mut Codes,
) -> Result<Moved, Status>
    requires known { known.old ≡ (L.seen link.old).face.codes }
    requires fits { Fits (ids_of configured.now) w.old (L.seen link.old).face.codes }
    requires settled { IsSettled w.old (L.seen link.old).face.codes }
    requires live { Live w.old (L.seen link.old) }
    ensures ok { IfOk result (λ moved. Steps moved (Stands w.old) (Stands w.new) (L.seen link.old) (L.seen link.new) (K.seen desk.old) (K.seen desk.new)) }
    ensures live { OnOk result (Live w.new (L.seen link.new)) }
    ensures err { IfErr result (λ end. Ran (Stands w.old) (Ends end (L.seen link.new).face w.new) (L.seen link.old) (L.seen link.new) (K.seen desk.old) (K.seen desk.new)) }
    ensures cause { IfErr result (λ end. TurnCause end (L.seen link.old) (L.seen link.new) (K.seen desk.old) (K.seen desk.new)) }
    ensures turned { IfOk result (λ moved. Turned moved w.old w.new (L.seen link.old) (L.seen link.new)) }
    ensures fits { OnOk result (Fits (ids_of configured.now) w.new (L.seen link.new).face.codes) }
    ensures settled { OnOk result (IsSettled w.new (L.seen link.new).face.codes) }
    ensures known { known.new ≡ (L.seen link.new).face.codes }
    ensures number { w.new.number ≡ w.old.number }
    ensures running { (L.seen link.new).face.running ≡ (L.seen link.old).face.running }
{
    match both_sides(alloc, desk, link, w, store) {
        Ok(brought) => {
            let learned = learn_codes(link, w, known);
            let moved = either(brought, learned);
            match close_turn(alloc, desk, link, w, configured, *known, moved) {
                Ok(()) => Ok(moved),
                Err(end) => Err(end),
            }
        }
        Err(end) => Err(end),
    }
}
