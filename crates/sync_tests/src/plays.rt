// Lines of a source and of a destination, and what a ledger answers.
use airbyte_message::{StateMsg, StreamStatus};
use basics::{Bytes, NoMemory, StreamNo};
use catalog::read_configured;
use outside::{Breach, Status};
use state_kinds::read_store;
use std::alloc::Global;
use sync_ledger::{Echoed, Ledger, LedgerFault, Verdict};

/// What is done with a ledger.
#[derive(Clone, Copy)]
pub enum Act {
    /// A line of the source, which is given where it is to be.
    Give(&'static str),
    /// A line of the source, which is not given.
    Hear(&'static str),
    /// A line of the destination.
    Dest(&'static str),
}

fn opened(alloc: Global, catalog: &str, store: &str) -> Option<Ledger> {
    let configured = read_configured(alloc, catalog.as_bytes()).ok()?;
    let set = read_store(alloc, store.as_bytes()).ok()?;
    Ledger::new(alloc, &configured, &set).ok()
}

fn put_line(told: &mut Bytes, front: &str, text: &[u8]) -> Result<(), NoMemory> {
    told.extend(front.as_bytes())?;
    told.extend(text)?;
    told.push(b'\n')
}

fn put_status(alloc: Global, told: &mut Bytes, status: Status) -> Result<(), NoMemory> {
    let text = status.text(alloc)?;
    put_line(told, "", text.as_slice())
}

fn put_state(told: &mut Bytes, state: &StateMsg) -> Result<(), NoMemory> {
    put_line(told, "state ", state.object().as_slice())
}

fn put_verdict(told: &mut Bytes, verdict: Verdict) -> Result<(), NoMemory> {
    match verdict {
        Verdict::Give => put_line(told, "give", b""),
        Verdict::Say(line) => put_line(told, "say ", line.as_slice()),
        Verdict::Nothing => put_line(told, "nothing", b""),
        Verdict::ConfigError(line) => put_line(told, "config ", line.as_slice()),
    }
}

fn put_echoed(told: &mut Bytes, echoed: Echoed) -> Result<(), NoMemory> {
    match echoed {
        Echoed::State(state) => put_state(told, &state),
        Echoed::Say(line) => put_line(told, "say ", line.as_slice()),
        Echoed::Nothing => put_line(told, "nothing", b""),
        Echoed::ConfigError(line) => put_line(told, "config ", line.as_slice()),
    }
}

// The breach of a fault.
fn breach_of(fault: LedgerFault) -> Result<Breach, NoMemory> {
    match fault {
        LedgerFault::Breach(breach) => Ok(breach),
        LedgerFault::NoMemory => Err(NoMemory),
    }
}

fn hear(alloc: Global, ledger: &mut Ledger, line: &str, told: &mut Bytes) -> Result<(), NoMemory> {
    let number = ledger.lines().saturating_add(1);
    match ledger.source_line(line.as_bytes()) {
        Ok(verdict) => put_verdict(told, verdict),
        Err(fault) => {
            let breach = breach_of(fault)?;
            put_status(
                alloc,
                told,
                Status::SourceBreach {
                    breach,
                    line: number,
                },
            )
        }
    }
}

fn hear_dest(
    alloc: Global,
    ledger: &mut Ledger,
    line: &str,
    number: u64,
    told: &mut Bytes,
) -> Result<(), NoMemory> {
    match ledger.dest_line(line.as_bytes()) {
        Ok(echoed) => put_echoed(told, echoed),
        Err(fault) => {
            let breach = breach_of(fault)?;
            put_status(
                alloc,
                told,
                Status::DestBreach {
                    breach,
                    line: number,
                },
            )
        }
    }
}

fn status_text(status: Option<StreamStatus>) -> &'static str {
    match status {
        Some(status) => status.text(),
        None => "-",
    }
}

fn put_stream(
    alloc: Global,
    ledger: &Ledger,
    stream: StreamNo,
    told: &mut Bytes,
) -> Result<(), NoMemory> {
    if stream < ledger.streams() {
        let count = ledger.counts(stream);
        let status = status_text(ledger.status_of(stream));
        let text = format!(in alloc; "{count} {status}")?;
        put_line(told, "stream ", text.as_bytes())?;
    }
    Ok(())
}

// What a ledger knows in the end.
fn put_end(alloc: Global, ledger: &Ledger, told: &mut Bytes) -> Result<(), NoMemory> {
    put_stream(alloc, ledger, 0, told)?;
    put_stream(alloc, ledger, 1, told)?;
    let pending = ledger.pending();
    let first = ledger.first_pending().unwrap_or(0);
    let text = format!(in alloc; "{pending} first {first}")?;
    told.extend(b"pending ")?;
    told.extend(text.as_bytes())
}

/// What a ledger over this catalog and store answers, line by line, and what it knows in the end. Empty where there is no
/// ledger.
pub fn play(alloc: Global, catalog: &str, store: &str, acts: &[Act]) -> Result<Bytes, NoMemory> {
    let mut told = Bytes::new(alloc);
    let Some(mut ledger) = opened(alloc, catalog, store) else {
        return Ok(told);
    };
    let mut number = 0u64;
    for act in acts {
        match *act {
            Act::Give(line) => {
                hear(alloc, &mut ledger, line, &mut told)?;
                ledger.gave();
            }
            Act::Hear(line) => hear(alloc, &mut ledger, line, &mut told)?,
            Act::Dest(line) => {
                number = number.saturating_add(1);
                hear_dest(alloc, &mut ledger, line, number, &mut told)?;
            }
        }
    }
    put_end(alloc, &ledger, &mut told)?;
    Ok(told)
}
