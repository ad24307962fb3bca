// Saying lines.
ghost use Rattle.std.specs.Prelude.{◌≡◌, [], ◌∷◌, IfErr, OnOk};
ghost use Rattle.attempt_turns.specs.Heard.{SayEnds, SaysLines};

use basics::Bytes;
use outside::{Desk, Fault, Status};

/// Says a line.
pub fn say_line<K: Desk>(desk: &mut K, line: &Bytes) -> Result<(), Status>
    ensures ok { OnOk result (SaysLines (line.now ∷ []) (K.seen desk.old) (K.seen desk.new)) }
    ensures err { IfErr result (λ end. SayEnds end line.now (K.seen desk.old) (K.seen desk.new)) }
{
    match desk.say(line.as_slice()) {
        Ok(()) => Ok(()),
        Err(Fault::Failed) => Err(Status::SayFault),
        Err(Fault::NoMemory) => Err(Status::NoMemory),
    }
}
