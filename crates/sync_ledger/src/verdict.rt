// What is to be done with a line.
ghost use Rattle.std.specs.Prelude.{◌≡◌};
ghost use Rattle.sync_ledger.specs.Told.{echoed_of as echoed_by, verdict_of as verdict_by};
ghost use Rattle.sync_ledger.specs.declared.verdict.LedgerFault.TheVariants as ledger_fault;

use crate::Saying;
use airbyte_message::StateMsg;
use basics::{Bytes, NoMemory};
use outside::Breach;

/// What is to be done with a line of the source.
#[derive(Debug, Drop)]
pub enum Verdict {
    /// It is to be given to the destination, byte for byte.
    Give,
    /// This line is to be said.
    Say(Bytes),
    Nothing,
    /// This line is to be said, and the sync ends: the source found its configuration faulty.
    ConfigError(Bytes),
}

/// What a line of the destination is.
#[derive(Debug, Drop)]
pub enum Echoed {
    /// A state that takes this state of the source, which is to be saved.
    State(StateMsg),
    /// This line is to be said.
    Say(Bytes),
    Nothing,
    /// This line is to be said, and the sync ends: the destination found its configuration faulty.
    ConfigError(Bytes),
}

/// Why a line is refused. The ledger is as before.
#[derive(Clone, Copy, Debug, PartialEq, Eq)]
pub enum LedgerFault {
    Breach(Breach),
    NoMemory,
}

impl From<NoMemory> for LedgerFault {
    ghost from_gives = { λ _ fault. fault ≡ ledger_fault.NoMemory };

    fn from(_: NoMemory) -> Self {
        LedgerFault::NoMemory
    }
}

/// What is to be done with a line of the source of which this is to be said.
pub fn verdict_of(saying: Saying) -> Verdict
    ensures { result ≡ verdict_by saying }
{
    match saying {
        Saying::Say(line) => Verdict::Say(line),
        Saying::Nothing => Verdict::Nothing,
        Saying::ConfigError(line) => Verdict::ConfigError(line),
    }
}

/// What a line of the destination is of which this is to be said.
pub fn echoed_of(saying: Saying) -> Echoed
    ensures { result ≡ echoed_by saying }
{
    match saying {
        Saying::Say(line) => Echoed::Say(line),
        Saying::Nothing => Echoed::Nothing,
        Saying::ConfigError(line) => Echoed::ConfigError(line),
    }
}
