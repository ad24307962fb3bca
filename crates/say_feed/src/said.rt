// Saying the lines of a feed.
ghost use Rattle.std.specs.Prelude.{◌≡◌, ◌≤◌, ◌∷◌, [], None, Err, IfErr, OnOk};
ghost use Rattle.outside.specs.Desk.{SaidFront, SaidLines, SaysOnly};
ghost use Rattle.outside.specs.Feed.{anything};
ghost use Rattle.outside.specs.declared.status.Status.TheVariants as status;
ghost use Rattle.say_feed.specs.Said.{EndsLine, IsMore, SaysFeed, SaysNext, WritesOut, say_status};

use outside::{Desk, Fault, Feed, Status};
use std::alloc::Global;

// What a fault of saying makes of a run.
fn say_fault(fault: Fault) -> Status
    ensures { result ≡ say_status fault }
{
    match fault {
        Fault::Failed => Status::WriteFault,
        Fault::NoMemory => Status::NoMemory,
    }
}

/// Writes out what was said, before a run answers this.
pub fn write_out<K: Desk>(desk: &mut K, last: Status) -> Status
    ensures { WritesOut last result (K.seen desk.old) (K.seen desk.new) }
{
    match desk.flush() {
        Ok(()) => last,
        Err(Fault::Failed) => Status::WriteFault,
        Err(Fault::NoMemory) => unreachable!(),
    }
}

// Whether a line is a state, for which a reader waits.
fn is_state(line: &[u8]) -> bool {
    line.starts_with(b"{\"type\":\"STATE\",")
}

// Writes out what was said, where its last line is a state.
fn write_behind<K: Desk>(desk: &mut K, line: &[u8]) -> Result<(), Status>
    ensures said { (K.seen desk.new).said ≡ (K.seen desk.old).said }
    ensures only { SaysOnly (result ≡ Err status.WriteFault) (K.seen desk.old) (K.seen desk.new) }
    ensures cause { IfErr result (λ why. why ≡ status.WriteFault) }
    ensures stays { ¬ (result ≡ Err status.WriteFault) → (K.seen desk.new).say_faults ≡ (K.seen desk.old).say_faults }
{
    if !is_state(line) {
        return Ok(());
    }
    match desk.flush() {
        Ok(()) => Ok(()),
        Err(Fault::Failed) => Err(Status::WriteFault),
        Err(Fault::NoMemory) => unreachable!(),
    }
}

/// Says a line. Behind a state what was said is written out.
pub fn say_line<K: Desk>(desk: &mut K, line: &[u8]) -> Result<(), Status>
    ensures ok { OnOk result (SaidLines (line.now ∷ []) (K.seen desk.old) (K.seen desk.new)) }
    ensures front { SaidFront (result ≡ Err status.WriteFault) (line.now ∷ []) (K.seen desk.old) (K.seen desk.new) }
    ensures cause { IfErr result EndsLine }
    ensures stays { ¬ (result ≡ Err status.WriteFault) → (K.seen desk.new).say_faults ≡ (K.seen desk.old).say_faults }
{
    match desk.say(line) {
        Ok(()) => write_behind(desk, line),
        Err(fault) => Err(say_fault(fault)),
    }
}

// Says the next line of a feed; `false` where there is none.
fn say_next<K: Desk, F: Feed>(alloc: Global, desk: &mut K, feed: &mut F) -> Result<bool, Status>
    requires goes { (F.seen feed.old).ended ≡ None }
    requires open { F.MayGive feed.old anything }
    ensures says { SaysNext result (F.MayGive feed.old) (F.MayGive feed.new) (F.seen feed.old).faults (F.seen feed.new).faults (K.seen desk.old) (K.seen desk.new) }
    ensures more { IsMore result → ((F.seen feed.new).ended ≡ None) × F.MayGive feed.new anything }
    ensures faults { (F.seen feed.old).faults ≤ (F.seen feed.new).faults }
    ensures only { SaysOnly ⊥ (K.seen desk.old) (K.seen desk.new) }
    ensures stays { ¬ (result ≡ Err status.WriteFault) → (K.seen desk.new).say_faults ≡ (K.seen desk.old).say_faults }
{
    match feed.next_line(alloc) {
        Ok(Some(line)) => match say_line(desk, line.as_slice()) {
            Ok(()) => Ok(true),
            Err(why) => Err(why),
        },
        Ok(None) => Ok(false),
        Err(why) => Err(why),
    }
}

/// Says all lines of a feed that has begun, and answers how it ended. What was said is written out behind each state, and before
/// the answer.
pub fn say_feed<K: Desk, F: Feed>(alloc: Global, desk: &mut K, feed: &mut F) -> Status
    requires goes { (F.seen feed.old).ended ≡ None }
    requires open { F.MayGive feed.old anything }
    ensures says { SaysFeed result (F.MayGive feed.old) (F.seen feed.old).faults (F.seen feed.new).faults (K.seen desk.old) (K.seen desk.new) }
    ensures faults { (F.seen feed.old).faults ≤ (F.seen feed.new).faults }
    ensures only { SaysOnly ⊥ (K.seen desk.old) (K.seen desk.new) }
    ensures stays { ¬ (result ≡ status.WriteFault) → (K.seen desk.new).say_faults ≡ (K.seen desk.old).say_faults }
{
    'lines: for _ in 0..u64::MAX {
        match say_next(alloc, desk, feed) {
            Ok(true) => {}
            Ok(false) => return write_out(desk, Status::Ok),
            Err(why) => return write_out(desk, why),
        }
    }
    Status::NoMemory
}
