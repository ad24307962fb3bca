// Lines of the worker's own, which tell that streams are complete.
ghost use Rattle.std.specs.Prelude.{◌≡◌, ◌+◌, ◌<◌, ◌^◌, ℕ, length, slice_get, IfOk, IfSome, OnErr, Some};
ghost use Rattle.basics.specs.declared.stream.StreamId.{StreamId};
ghost use Rattle.catalog.specs.Reading.{ids_of};
ghost use Rattle.sync_rules.specs.Sync.{completion};
ghost use Rattle.attempt_close.specs.Completions.{CompletesNext, IsNextUntold};

use airbyte_message::{Message, StreamStatus, TraceMsg};
use attempt_turns::Worker;
use basics::{Bytes, Copies, NoMemory, StreamNo};
use catalog::Configured;
use message_writer::write_message;
use std::alloc::Global;
use sync_ledger::Ledger;

// The line which tells that a stream is complete.
fn completion_line(
    alloc: Global,
    configured: &Configured,
    stream: StreamNo,
) -> Result<Bytes, NoMemory>
    requires { stream < length configured.now }
    ensures { IfOk result (λ line. (id : StreamId) → slice_get (ids_of configured.now) stream ≡ Some id → line ≡ completion id) }
{
    let id = configured.stream(stream).id.copy(alloc)?;
    let emitted_at = Some(Bytes::copy_of(alloc, b"0")?);
    let status = StreamStatus::Complete;
    write_message(
        alloc,
        &Message::Trace(TraceMsg::Status {
            id,
            status,
            emitted_at,
        }),
    )
}

// The first stream from this number on that has no status.
fn next_untold(ledger: &Ledger, from: StreamNo) -> Option<StreamNo>
    ensures next { IsNextUntold ledger.now from result }
    ensures room { IfSome result (λ n. n + 1 < 2 ^ 32) }
{
    for n in from..ledger.streams() {
        if ledger.status_of(n).is_none() {
            return Some(n);
        }
    }
    None
}

/// Holds the completion of the next stream that has no status. `false` where none is left.
pub fn next_completion(
    alloc: Global,
    configured: &Configured,
    w: &mut Worker,
) -> Result<bool, NoMemory>
    requires { w.old.ledger.ids ≡ ids_of configured.now }
    ensures ok { IfOk result (λ is_held. CompletesNext (ids_of configured.now) is_held w.old w.new) }
    ensures err { OnErr result (w.new ≡ w.old) }
{
    match next_untold(&w.ledger, w.completed) {
        Some(n) => {
            w.held = Some(completion_line(alloc, configured, n)?);
            w.is_completing = true;
            w.completed = n + 1;
            Ok(true)
        }
        None => {
            w.completed = w.ledger.streams();
            Ok(false)
        }
    }
}
