// States are released one after another.
ghost use Rattle.std.specs.Prelude.{◌≡◌, ◌≢◌};
ghost use Rattle.airbyte_message.specs.declared.message.StateKind.TheVariants.{Legacy};
ghost use Rattle.book_parts.specs.Steps.{MayRelease, NextAnswer};
ghost use Rattle.book_rules.specs.Releases.{EchoAnswer, ReleaseAnswer, stop_of as status_of};

use airbyte_message::echo_of;
use outside::{Dock, Fault, Status};
use state_gate::{Gate, Pending};
use std::alloc::Global;

// Emits the echo of a state.
fn emit_echo<D: Dock>(alloc: Global, dock: &mut D, pending: &Pending) -> Result<(), Fault>
    requires { pending.now.state.kind ≢ Legacy }
    ensures { EchoAnswer result pending.now (D.seen dock.old) (D.seen dock.new) }
{
    let echo = echo_of(alloc, &pending.state, pending.count)?;
    dock.emit(echo.as_slice())
}

/// What a book broke by where a release stopped.
pub fn stop_of(fault: Fault) -> Status
    ensures { result ≡ status_of fault }
{
    match fault {
        Fault::Failed => Status::WriteFault,
        Fault::NoMemory => Status::NoMemory,
    }
}

// Emits the echo of the state that may go, and counts it; the answer is whether there was one.
fn release_next<D: Dock>(
    alloc: Global,
    dock: &mut D,
    gate: &mut Gate,
    emitted: &mut u64,
) -> Result<bool, Fault>
    requires { MayRelease emitted.old gate.old }
    ensures { NextAnswer result (record { gate = gate.old; seen = D.seen dock.old; emitted = emitted.old }) (record { gate = gate.new; seen = D.seen dock.new; emitted = emitted.new }) }
{
    let Some(pending) = gate.take_head() else {
        return Ok(false);
    };
    emit_echo(alloc, dock, &pending)?;
    *emitted += 1;
    Ok(true)
}

/// Emits the echo of each state that may go, until there is none.
pub fn release<D: Dock>(
    alloc: Global,
    dock: &mut D,
    gate: &mut Gate,
    emitted: &mut u64,
) -> Result<(), Fault>
    requires { MayRelease emitted.old gate.old }
    ensures { ReleaseAnswer result (record { gate = gate.old; seen = D.seen dock.old; emitted = emitted.old }) (record { gate = gate.new; seen = D.seen dock.new; emitted = emitted.new }) }
{
    'heads: while release_next(alloc, dock, gate, emitted)? {}
    Ok(())
}
