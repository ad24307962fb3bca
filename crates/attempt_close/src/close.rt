// Completions are given, and the destination's input is closed.
ghost use Rattle.std.specs.Prelude.{◌≡◌, ◌≤◌, false, is_some, length, None, OnOk, Some, true, IfErr, IfOk};
ghost use Rattle.catalog.specs.Reading.{ids_of};
ghost use Rattle.outside.specs.Desk.{DeskSeen};
ghost use Rattle.outside.specs.declared.event.Exit.TheVariants.{Code};
ghost use Rattle.attempt_turns.specs.Ends.{Ends, TurnCause, WasQuiet};
ghost use Rattle.attempt_turns.specs.History.{Ran};
ghost use Rattle.attempt_turns.specs.Silence.{Fewer, Rested, Steps};
ghost use Rattle.attempt_turns.specs.Worker.{Live, Stands};
ghost use Rattle.attempt_close.specs.Turns.{Fits, HoldsCompletion, IsSettled, all_left};

use crate::complete::next_completion;
use attempt_turns::{Moved, Worker};
use catalog::Configured;
use outside::{Codes, Exit, Fault, Link, Offered, Status};
use std::alloc::Global;

/// Offers the completion that is held to the destination. It is held until that takes it.
pub fn offer_completion<L: Link>(link: &mut L, w: &mut Worker) -> Result<Moved, Status>
    requires own { w.old.is_completing ≡ true }
    requires held { HoldsCompletion w.old.ledger.ids w.old }
    requires opened { w.old.closed ≡ false }
    requires live { Live w.old (L.seen link.old) }
    ensures ok { (desk : DeskSeen) → IfOk result (λ moved. Steps moved (Stands w.old) (Stands w.new) (L.seen link.old) (L.seen link.new) desk desk) }
    ensures live { OnOk result (Live w.new (L.seen link.new)) }
    ensures err { (desk : DeskSeen) → IfErr result (λ end. Ran (Stands w.old) (Ends end (L.seen link.new).face w.new) (L.seen link.old) (L.seen link.new) desk desk) }
    ensures cause { (desk : DeskSeen) → IfErr result (λ end. TurnCause end (L.seen link.old) (L.seen link.new) desk desk) }
    ensures quiet { IfOk result (λ moved. WasQuiet moved (L.seen link.old) (L.seen link.new)) }
    ensures rested { IfOk result (λ moved. Rested moved w.old w.new) }
    ensures fewer { IfOk result (λ moved. Fewer moved w.old w.new) }
    ensures kept { w.new ≡ record (w.old) { held = w.new.held; is_completing = w.new.is_completing } }
    ensures own_line { w.new.is_completing ≡ true → w.new ≡ w.old }
    ensures codes { (L.seen link.new).face.codes ≡ (L.seen link.old).face.codes }
    ensures running { (L.seen link.new).face.running ≡ (L.seen link.old).face.running }
{
    let Some(line) = &w.held else { unreachable!() };
    match link.offer_dest(line.as_slice()) {
        Offered::Taken => {
            w.held = None;
            w.is_completing = false;
            Ok(Moved::Yes)
        }
        Offered::NotYet => Ok(Moved::No),
        Offered::Failed => Err(Status::LinkFault),
        Offered::NoMemory => Err(Status::NoMemory),
    }
}

/// Closes the destination's input, behind all that is to be given.
pub fn close_input<L: Link>(link: &mut L, w: &mut Worker) -> Result<(), Status>
    requires over { w.old.read_over ≡ true }
    requires going { w.old.got_over ≡ false }
    requires opened { w.old.closed ≡ false }
    requires empty { w.old.held ≡ None }
    requires all_made { (L.seen link.old).face.codes.source ≡ Some (Code 0) → length w.old.ledger.ids ≤ w.old.completed }
    requires live { Live w.old (L.seen link.old) }
    ensures ok { (desk : DeskSeen) → OnOk result (Ran (Stands w.old) (Stands w.new) (L.seen link.old) (L.seen link.new) desk desk) }
    ensures live { OnOk result (Live w.new (L.seen link.new)) }
    ensures err { (desk : DeskSeen) → IfErr result (λ end. Ran (Stands w.old) (Ends end (L.seen link.new).face w.new) (L.seen link.old) (L.seen link.new) desk desk) }
    ensures cause { (desk : DeskSeen) → IfErr result (λ end. TurnCause end (L.seen link.old) (L.seen link.new) desk desk) }
    ensures closed { OnOk result (w.new.closed ≡ true) }
    ensures kept { w.new ≡ record (w.old) { closed = w.new.closed } }
    ensures codes { (L.seen link.new).face.codes ≡ (L.seen link.old).face.codes }
    ensures running { (L.seen link.new).face.running ≡ (L.seen link.old).face.running }
{
    match link.close_dest() {
        Ok(()) => {
            w.closed = true;
            Ok(())
        }
        Err(Fault::Failed) => Err(Status::LinkFault),
        Err(Fault::NoMemory) => Err(Status::NoMemory),
    }
}

// Holds the next completion, or closes the destination's input where none is left.
fn complete<L: Link>(
    alloc: Global,
    link: &mut L,
    w: &mut Worker,
    configured: &Configured,
) -> Result<(), Status>
    requires over { w.old.read_over ≡ true }
    requires going { w.old.got_over ≡ false }
    requires opened { w.old.closed ≡ false }
    requires empty { w.old.held ≡ None }
    requires code { (L.seen link.old).face.codes.source ≡ Some (Code 0) }
    requires fits { Fits (ids_of configured.now) w.old (L.seen link.old).face.codes }
    requires live { Live w.old (L.seen link.old) }
    ensures ok { (desk : DeskSeen) → OnOk result (Ran (Stands w.old) (Stands w.new) (L.seen link.old) (L.seen link.new) desk desk) }
    ensures live { OnOk result (Live w.new (L.seen link.new)) }
    ensures err { (desk : DeskSeen) → IfErr result (λ end. Ran (Stands w.old) (Ends end (L.seen link.new).face w.new) (L.seen link.old) (L.seen link.new) desk desk) }
    ensures cause { (desk : DeskSeen) → IfErr result (λ end. TurnCause end (L.seen link.old) (L.seen link.new) desk desk) }
    ensures kept { w.new ≡ record (w.old) { held = w.new.held; is_completing = w.new.is_completing; completed = w.new.completed; closed = w.new.closed } }
    ensures fits { OnOk result (Fits (ids_of configured.now) w.new (L.seen link.new).face.codes) }
    ensures settled { OnOk result (IsSettled w.new (L.seen link.new).face.codes) }
    ensures fewer { OnOk result (all_left w.new (L.seen link.new).face.codes ≤ all_left w.old (L.seen link.old).face.codes) }
    ensures codes { (L.seen link.new).face.codes ≡ (L.seen link.old).face.codes }
    ensures running { (L.seen link.new).face.running ≡ (L.seen link.old).face.running }
{
    match next_completion(alloc, configured, w) {
        Ok(is_held) => {
            if is_held {
                return Ok(());
            }
            match close_input(link, w) {
                Ok(()) => Ok(()),
                Err(end) => Err(end),
            }
        }
        Err(_) => Err(Status::NoMemory),
    }
}

/// Behind the end of the source's output, once its code is known: where nothing is held the next completion is, or the destination's
/// input is closed, which it is at once after another code than 0.
pub fn settle<L: Link>(
    alloc: Global,
    link: &mut L,
    w: &mut Worker,
    configured: &Configured,
    known: Codes,
) -> Result<(), Status>
    requires known { known ≡ (L.seen link.old).face.codes }
    requires fits { Fits (ids_of configured.now) w.old (L.seen link.old).face.codes }
    requires live { Live w.old (L.seen link.old) }
    ensures ok { (desk : DeskSeen) → OnOk result (Ran (Stands w.old) (Stands w.new) (L.seen link.old) (L.seen link.new) desk desk) }
    ensures live { OnOk result (Live w.new (L.seen link.new)) }
    ensures err { (desk : DeskSeen) → IfErr result (λ end. Ran (Stands w.old) (Ends end (L.seen link.new).face w.new) (L.seen link.old) (L.seen link.new) desk desk) }
    ensures cause { (desk : DeskSeen) → IfErr result (λ end. TurnCause end (L.seen link.old) (L.seen link.new) desk desk) }
    ensures kept { w.new ≡ record (w.old) { held = w.new.held; is_completing = w.new.is_completing; completed = w.new.completed; closed = w.new.closed } }
    ensures fits { OnOk result (Fits (ids_of configured.now) w.new (L.seen link.new).face.codes) }
    ensures settled { OnOk result (IsSettled w.new (L.seen link.new).face.codes) }
    ensures fewer { OnOk result (all_left w.new (L.seen link.new).face.codes ≤ all_left w.old (L.seen link.old).face.codes) }
    ensures codes { (L.seen link.new).face.codes ≡ (L.seen link.old).face.codes }
    ensures running { (L.seen link.new).face.running ≡ (L.seen link.old).face.running }
{
    if !w.read_over || w.got_over || w.closed || w.held.is_some() {
        return Ok(());
    }
    match known.source {
        None => Ok(()),
        Some(Exit::Code(0)) => complete(alloc, link, w, configured),
        Some(_) => close_input(link, w),
    }
}
