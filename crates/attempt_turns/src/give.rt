// Lines for the destination.
ghost use Rattle.std.specs.Prelude.{◌≡◌, true, false, is_some, IfErr, IfOk, OnOk};
ghost use Rattle.outside.specs.Desk.{DeskSeen};
ghost use Rattle.attempt_turns.specs.Ends.{Ends, TurnCause, WasQuiet};
ghost use Rattle.attempt_turns.specs.History.{Ran};
ghost use Rattle.attempt_turns.specs.Silence.{Fewer, Rested, Steps};
ghost use Rattle.attempt_turns.specs.Worker.{Live, Stands};

use crate::{Moved, Worker};
use outside::{Link, Offered, Status};

/// Offers the line that is held, which is the source's, to the destination. It is held until that takes it.
pub fn offer_held<L: Link>(link: &mut L, w: &mut Worker) -> Result<Moved, Status>
    requires held { is_some w.old.held ≡ true }
    requires own { w.old.is_completing ≡ false }
    requires opened { w.old.closed ≡ false }
    requires live { Live w.old (L.seen link.old) }
    ensures ok { (desk : DeskSeen) → IfOk result (λ moved. Steps moved (Stands w.old) (Stands w.new) (L.seen link.old) (L.seen link.new) desk desk) }
    ensures live { OnOk result (Live w.new (L.seen link.new)) }
    ensures err { (desk : DeskSeen) → IfErr result (λ end. Ran (Stands w.old) (Ends end (L.seen link.new).face w.new) (L.seen link.old) (L.seen link.new) desk desk) }
    ensures cause { (desk : DeskSeen) → IfErr result (λ end. TurnCause end (L.seen link.old) (L.seen link.new) desk desk) }
    ensures quiet { IfOk result (λ moved. WasQuiet moved (L.seen link.old) (L.seen link.new)) }
    ensures rested { IfOk result (λ moved. Rested moved w.old w.new) }
    ensures fewer { IfOk result (λ moved. Fewer moved w.old w.new) }
    ensures kept { w.new ≡ record (w.old) { ledger = w.new.ledger; held = w.new.held } }
    ensures ids { w.new.ledger.ids ≡ w.old.ledger.ids }
    ensures codes { (L.seen link.new).face.codes ≡ (L.seen link.old).face.codes }
    ensures running { (L.seen link.new).face.running ≡ (L.seen link.old).face.running }
{
    let Some(line) = &w.held else { unreachable!() };
    match link.offer_dest(line.as_slice()) {
        Offered::Taken => {
            w.ledger.gave();
            w.held = None;
            Ok(Moved::Yes)
        }
        Offered::NotYet => Ok(Moved::No),
        Offered::Failed => Err(Status::LinkFault),
        Offered::NoMemory => Err(Status::NoMemory),
    }
}
