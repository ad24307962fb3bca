// The source's side of a turn.
ghost use Rattle.std.specs.Prelude.{◌≡◌, None, IfErr, IfOk, OnErr, OnOk};
ghost use Rattle.attempt_turns.specs.Ends.{Ends, TurnCause, WasQuiet};
ghost use Rattle.attempt_turns.specs.Heard.{HeardSource, HearsSource, LineEnds, RefusedSource};
ghost use Rattle.attempt_turns.specs.History.{Ran};
ghost use Rattle.attempt_turns.specs.Silence.{Fewer, Rested, Steps};
ghost use Rattle.attempt_turns.specs.Worker.{IsReadable, Live, Stands};

use crate::{Moved, Worker, say_line};
use basics::Bytes;
use outside::{Breach, Desk, Link, Polled, Side, Status};
use sync_ledger::{LedgerFault, MOST_LINES, Verdict};

// What is to be done with a line that was read. It is held where it is to be given.
fn hear_source(w: &mut Worker, line: Bytes) -> Result<Verdict, Status>
    requires { w.old.held ≡ None }
    ensures ok { IfOk result (λ answer. HearsSource w.old line answer w.new) }
    ensures err { OnErr result (w.new ≡ w.old) }
    ensures end { IfErr result (λ end. RefusedSource end w.old line) }
    ensures kept { w.new ≡ record (w.old) { ledger = w.new.ledger; held = w.new.held } }
    ensures ids { w.new.ledger.ids ≡ w.old.ledger.ids }
{
    if w.ledger.lines() >= MOST_LINES {
        return Err(Status::TooManyLines);
    }
    match w.ledger.source_line(line.as_slice()) {
        Ok(Verdict::Give) => {
            w.held = Some(line);
            Ok(Verdict::Give)
        }
        Ok(Verdict::Say(words)) => Ok(Verdict::Say(words)),
        Ok(Verdict::Nothing) => Ok(Verdict::Nothing),
        Ok(Verdict::ConfigError(words)) => Ok(Verdict::ConfigError(words)),
        Err(LedgerFault::Breach(breach)) => Err(Status::SourceBreach {
            breach,
            line: w.ledger.lines() + 1,
        }),
        Err(LedgerFault::NoMemory) => Err(Status::NoMemory),
    }
}

// A line that was read is heard, and what is to be said of it is said.
fn take_read<K: Desk>(desk: &mut K, w: &mut Worker, line: Bytes) -> Result<(), Status>
    requires { w.old.held ≡ None }
    ensures ok { OnOk result (HeardSource w.old line w.new (K.seen desk.old) (K.seen desk.new)) }
    ensures err { IfErr result (λ end. LineEnds end w.old line w.new (K.seen desk.old) (K.seen desk.new)) }
    ensures kept { w.new ≡ record (w.old) { ledger = w.new.ledger; held = w.new.held } }
    ensures ids { w.new.ledger.ids ≡ w.old.ledger.ids }
{
    match hear_source(w, line) {
        Ok(Verdict::Give) => Ok(()),
        Ok(Verdict::Nothing) => Ok(()),
        Ok(Verdict::Say(words)) => say_line(desk, &words),
        Ok(Verdict::ConfigError(words)) => {
            say_line(desk, &words)?;
            Err(Status::ConfigError {
                side: Side::Source,
                line: w.ledger.lines(),
            })
        }
        Err(end) => Err(end),
    }
}

/// Polls the source once. Where it gives a line, that is heard and, where it is to be given, held.
pub fn read_source<K: Desk, L: Link>(
    desk: &mut K,
    link: &mut L,
    w: &mut Worker,
) -> Result<Moved, Status>
    requires readable { IsReadable w.old }
    requires live { Live w.old (L.seen link.old) }
    ensures ok { IfOk result (λ moved. Steps moved (Stands w.old) (Stands w.new) (L.seen link.old) (L.seen link.new) (K.seen desk.old) (K.seen desk.new)) }
    ensures live { OnOk result (Live w.new (L.seen link.new)) }
    ensures err { IfErr result (λ end. Ran (Stands w.old) (Ends end (L.seen link.new).face w.new) (L.seen link.old) (L.seen link.new) (K.seen desk.old) (K.seen desk.new)) }
    ensures cause { IfErr result (λ end. TurnCause end (L.seen link.old) (L.seen link.new) (K.seen desk.old) (K.seen desk.new)) }
    ensures quiet { IfOk result (λ moved. WasQuiet moved (L.seen link.old) (L.seen link.new)) }
    ensures rested { IfOk result (λ moved. Rested moved w.old w.new) }
    ensures fewer { IfOk result (λ moved. Fewer moved w.old w.new) }
    ensures kept { w.new ≡ record (w.old) { ledger = w.new.ledger; held = w.new.held; read_over = w.new.read_over } }
    ensures ids { w.new.ledger.ids ≡ w.old.ledger.ids }
    ensures codes { (L.seen link.new).face.codes ≡ (L.seen link.old).face.codes }
    ensures running { (L.seen link.new).face.running ≡ (L.seen link.old).face.running }
{
    match link.poll_source() {
        Polled::Line(line) => match take_read(desk, w, line) {
            Ok(()) => Ok(Moved::Yes),
            Err(end) => Err(end),
        },
        Polled::Torn(line) => match take_read(desk, w, line) {
            Ok(()) => Ok(Moved::Yes),
            Err(end) => Err(end),
        },
        Polled::TooLong => Err(Status::SourceBreach {
            breach: Breach::TooLong,
            line: w.ledger.lines().saturating_add(1),
        }),
        Polled::NotYet => Ok(Moved::No),
        Polled::End => {
            w.read_over = true;
            Ok(Moved::Yes)
        }
        Polled::Failed => Err(Status::LinkFault),
        Polled::NoMemory => Err(Status::NoMemory),
    }
}
