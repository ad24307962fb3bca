// How an attempt has ended.
ghost use Rattle.std.specs.Prelude.{◌≡◌, true, is_some, Some};
ghost use Rattle.outside.specs.declared.event.Exit.TheVariants.{Code};
ghost use Rattle.attempt_turns.specs.Ends.{is_done as is_done_status};
ghost use Rattle.attempt_close.specs.Ended.{AreDone, HasEnded, IsEarly, IsFirstUndone, IsOver};

use crate::codes::failed_exit;
use airbyte_message::StreamStatus;
use attempt_turns::Worker;
use basics::StreamNo;
use outside::{Codes, Exit, Status};
use sync_ledger::Ledger;

// Whether a stream's last status is that it is complete, or it has none.
fn is_done(status: Option<StreamStatus>) -> bool
    ensures { result ≡ is_done_status status }
{
    match status {
        None => true,
        Some(StreamStatus::Complete) => true,
        Some(_) => false,
    }
}

// The first stream whose last status is another than that it is complete.
fn first_undone(ledger: &Ledger) -> Option<StreamNo>
    ensures { IsFirstUndone ledger.now result }
{
    for n in 0..ledger.streams() {
        if !is_done(ledger.status_of(n)) {
            return Some(n);
        }
    }
    None
}

// The end where the destination's ended before its input was closed.
fn early_end(w: &Worker, known: Codes) -> Option<Status>
    requires { IsEarly w.now }
    ensures { HasEnded result w.now known }
{
    let dest = known.dest?;
    if let Some(exit) = failed_exit(known.source) {
        return Some(Status::SourceFailed(exit));
    }
    match failed_exit(Some(dest)) {
        Some(exit) => Some(Status::DestFailed(exit)),
        None => Some(Status::DestEarly),
    }
}

// The end of an attempt in which the source ended well and each stream is complete.
fn dest_end(w: &Worker, known: Codes) -> Option<Status>
    requires over { IsOver w.now }
    requires source { known.source ≡ Some (Code 0) }
    requires done { AreDone w.now.ledger }
    ensures { HasEnded result w.now known }
{
    let dest = known.dest?;
    if let Some(exit) = failed_exit(Some(dest)) {
        return Some(Status::DestFailed(exit));
    }
    match w.ledger.first_pending() {
        Some(line) => Some(Status::DestUnechoed { line }),
        None => Some(Status::Ok),
    }
}

// The end where all was given and the destination's input was closed before that of its output.
fn late_end(w: &Worker, known: Codes) -> Option<Status>
    requires over { IsOver w.now }
    requires source { is_some known.source ≡ true }
    ensures { HasEnded result w.now known }
{
    if let Some(exit) = failed_exit(known.source) {
        return Some(Status::SourceFailed(exit));
    }
    match first_undone(&w.ledger) {
        Some(stream) => Some(Status::SourceIncomplete { stream }),
        None => dest_end(w, known),
    }
}

/// How the attempt has ended, by the worker and the codes that are known; `None` while the end of the destination's output or a code is
/// awaited.
pub fn end_of(w: &Worker, known: Codes) -> Option<Status>
    requires { w.now.closed ≡ true → is_some known.source ≡ true }
    ensures { HasEnded result w.now known }
{
    if !w.got_over {
        return None;
    }
    if w.closed {
        late_end(w, known)
    } else {
        early_end(w, known)
    }
}
