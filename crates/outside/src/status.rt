// How a run ended.
ghost use Rattle.std.specs.Prelude.{◌≡◌, IfOk, string_bytes};
ghost use Rattle.outside.specs.Faults.{breach_text, exit_text, catalog_number, catalog_words, state_number, state_words, config_number, config_words};
ghost use Rattle.outside.specs.Status.{number_of, words_of, status_text, catalog_status, state_status, config_status};

use crate::{Breach, CatalogFault, ConfigFault, Exit, InputKind, Side, StateFault};
use basics::{Bytes, NoMemory, StreamNo};
use std::alloc::{AllocError, Global};

/// How a run ended. Its number is the exit status of the program.
#[derive(Clone, Copy, Debug, PartialEq, Eq)]
pub enum Status {
    /// All that was asked for was done.
    Ok,
    /// The words have another form.
    Usage,
    /// A destination's input ended before this stream was complete.
    Incomplete { stream: StreamNo },
    /// A destination refuses this line of its input.
    BadInput { kind: InputKind, line: u64 },
    /// A destination's store failed.
    StoreFault,
    /// A destination's input could not be read.
    ReadFault,
    /// A line of a connector could not be written.
    WriteFault,
    /// A source's rows could not be read.
    RowFault,
    /// A source's row is no JSON object, or nests too deep, or is no row of its file.
    BadRow { stream: StreamNo, row: u64 },
    BadConfig(ConfigFault),
    BadCatalog(CatalogFault),
    BadState(StateFault),
    /// A text could not be read.
    FileFault,
    /// The source ended so.
    SourceFailed(Exit),
    /// The worker refuses this line of the source.
    SourceBreach { breach: Breach, line: u64 },
    /// The source ended before this stream was complete.
    SourceIncomplete { stream: StreamNo },
    /// Nothing came for so many waits in a row.
    Silent { waits: u64 },
    /// A child says in this line that its configuration is wrong.
    ConfigError { side: Side, line: u64 },
    /// The connector says in this line that it cannot work with its configuration.
    CheckFailed { line: u64 },
    /// The connector ended without the answer that it was asked for.
    NoAnswer,
    /// The destination ended so.
    DestFailed(Exit),
    /// The worker refuses this line of the destination.
    DestBreach { breach: Breach, line: u64 },
    /// The destination sent no echo of the state in this line of the source.
    DestUnechoed { line: u64 },
    /// The destination ended before its input did.
    DestEarly,
    /// A child could not be started, reached or ended.
    LinkFault,
    /// The store of saved states could not be read or written.
    StateFault,
    /// A line could not be said.
    SayFault,
    /// A destination's input has 2^32 lines or more.
    TooManyLines,
    /// The worker does not take what stands in this line, counted from 1, or in the catalog where it is 0.
    Unbuilt { line: u64 },
    /// No memory was left.
    NoMemory,
}

impl CatalogFault {
    // The status's number.
    fn number(&self) -> u32
        ensures { result ≡ catalog_number self.now }
    {
        match self {
            CatalogFault::NoMemory => 70,
            _ => 11,
        }
    }

    // The status's words.
    fn words(&self, alloc: Global) -> Result<String, AllocError>
        ensures { IfOk result (λ text. string_bytes text ≡ catalog_words self.now) }
    {
        match *self {
            CatalogFault::NotJson => String::from_str(alloc, "BadCatalog NotJson"),
            CatalogFault::TooMany => String::from_str(alloc, "BadCatalog TooMany"),
            CatalogFault::Missing { stream } => format!(in alloc;
                "BadCatalog Missing stream {stream}"
            ),
            CatalogFault::BadMode { stream } => format!(in alloc;
                "BadCatalog BadMode stream {stream}"
            ),
            CatalogFault::TooLarge { stream } => format!(in alloc;
                "BadCatalog TooLarge stream {stream}"
            ),
            CatalogFault::MinimumAboveGeneration { stream } => format!(in alloc;
                "BadCatalog MinimumAboveGeneration stream {stream}"
            ),
            CatalogFault::NoKey { stream } => format!(in alloc; "BadCatalog NoKey stream {stream}"),
            CatalogFault::Twice { stream } => format!(in alloc; "BadCatalog Twice stream {stream}"),
            CatalogFault::GenerationsSpent { stream } => format!(in alloc;
                "BadCatalog GenerationsSpent stream {stream}"
            ),
            CatalogFault::NoMemory => String::from_str(alloc, "NoMemory"),
        }
    }
}

impl From<CatalogFault> for Status {
    ghost from_gives = { λ fault status. status ≡ catalog_status fault };

    fn from(fault: CatalogFault) -> Self {
        match fault {
            CatalogFault::NoMemory => Status::NoMemory,
            _ => Status::BadCatalog(fault),
        }
    }
}

impl StateFault {
    // The status's number.
    fn number(&self) -> u32
        ensures { result ≡ state_number self.now }
    {
        match self {
            StateFault::NoMemory => 70,
            _ => 12,
        }
    }

    // The status's words.
    fn words(&self) -> &'static str
        ensures { result.now ≡ state_words self.now }
    {
        match self {
            StateFault::NotJson => "BadState NotJson",
            StateFault::Legacy => "BadState Legacy",
            StateFault::Mixed => "BadState Mixed",
            StateFault::Twice => "BadState Twice",
            StateFault::TooLarge => "BadState TooLarge",
            StateFault::Unknown => "BadState Unknown",
            StateFault::Blob => "BadState Blob",
            StateFault::OutOfRange => "BadState OutOfRange",
            StateFault::NoMemory => "NoMemory",
        }
    }
}

impl From<StateFault> for Status {
    ghost from_gives = { λ fault status. status ≡ state_status fault };

    fn from(fault: StateFault) -> Self {
        match fault {
            StateFault::NoMemory => Status::NoMemory,
            _ => Status::BadState(fault),
        }
    }
}

impl ConfigFault {
    // The status's number.
    fn number(&self) -> u32
        ensures { result ≡ config_number self.now }
    {
        match self {
            ConfigFault::NoMemory => 70,
            _ => 10,
        }
    }

    // The status's words.
    fn words(&self) -> &'static str
        ensures { result.now ≡ config_words self.now }
    {
        match self {
            ConfigFault::NotJson => "BadConfig NotJson",
            ConfigFault::Missing => "BadConfig Missing",
            ConfigFault::OutOfRange => "BadConfig OutOfRange",
            ConfigFault::NoMemory => "NoMemory",
        }
    }
}

impl From<ConfigFault> for Status {
    ghost from_gives = { λ fault status. status ≡ config_status fault };

    fn from(fault: ConfigFault) -> Self {
        match fault {
            ConfigFault::NoMemory => Status::NoMemory,
            _ => Status::BadConfig(fault),
        }
    }
}

impl Breach {
    // The breach and the line in which it is.
    fn words(&self, alloc: Global, line: u64) -> Result<String, AllocError>
        ensures { IfOk result (λ text. string_bytes text ≡ breach_text self.now line) }
    {
        match *self {
            Breach::UnknownStream => format!(in alloc; "UnknownStream line {line}"),
            Breach::Legacy => format!(in alloc; "Legacy line {line}"),
            Breach::Mixed => format!(in alloc; "Mixed line {line}"),
            Breach::Miscount { said, counted } => {
                format!(in alloc; "Miscount line {line} said {said} counted {counted}")
            }
            Breach::TooLong => format!(in alloc; "TooLong line {line}"),
            Breach::Stranger => format!(in alloc; "Stranger line {line}"),
        }
    }
}

impl Exit {
    // How a child ended.
    fn words(&self, alloc: Global) -> Result<String, AllocError>
        ensures { IfOk result (λ text. string_bytes text ≡ exit_text self.now) }
    {
        match *self {
            Exit::Code(code) => format!(in alloc; "code {code}"),
            Exit::Signal => String::from_str(alloc, "signal"),
        }
    }
}

impl Status {
    /// The exit status.
    pub fn number(&self) -> u32
        ensures { result ≡ number_of self.now }
    {
        match *self {
            Status::Ok => 0,
            Status::Usage => 2,
            Status::Incomplete { .. } => 3,
            Status::BadInput { .. } => 4,
            Status::StoreFault => 5,
            Status::ReadFault => 6,
            Status::WriteFault => 7,
            Status::RowFault => 8,
            Status::BadRow { .. } => 9,
            Status::BadConfig(fault) => fault.number(),
            Status::BadCatalog(fault) => fault.number(),
            Status::BadState(fault) => fault.number(),
            Status::FileFault => 13,
            Status::SourceFailed(_) => 20,
            Status::SourceBreach { .. } => 21,
            Status::SourceIncomplete { .. } => 22,
            Status::Silent { .. } => 23,
            Status::ConfigError { .. } => 24,
            Status::CheckFailed { .. } => 25,
            Status::NoAnswer => 26,
            Status::DestFailed(_) => 30,
            Status::DestBreach { .. } => 31,
            Status::DestUnechoed { .. } => 32,
            Status::DestEarly => 33,
            Status::LinkFault => 40,
            Status::StateFault => 41,
            Status::SayFault => 42,
            Status::TooManyLines => 50,
            Status::Unbuilt { .. } => 60,
            Status::NoMemory => 70,
        }
    }

    // The words behind the number.
    fn words(&self, alloc: Global) -> Result<String, AllocError>
        ensures { IfOk result (λ text. string_bytes text ≡ words_of self.now) }
    {
        match *self {
            Status::Ok => String::from_str(alloc, "Ok"),
            Status::Usage => String::from_str(alloc, "Usage"),
            Status::Incomplete { stream } => format!(in alloc; "Incomplete stream {stream}"),
            Status::BadInput { kind, line } => {
                format!(in alloc; "BadInput {} line {line}", kind.text())
            }
            Status::StoreFault => String::from_str(alloc, "StoreFault"),
            Status::ReadFault => String::from_str(alloc, "ReadFault"),
            Status::WriteFault => String::from_str(alloc, "WriteFault"),
            Status::RowFault => String::from_str(alloc, "RowFault"),
            Status::BadRow { stream, row } => format!(in alloc; "BadRow stream {stream} row {row}"),
            Status::BadConfig(fault) => String::from_str(alloc, fault.words()),
            Status::BadCatalog(fault) => fault.words(alloc),
            Status::BadState(fault) => String::from_str(alloc, fault.words()),
            Status::FileFault => String::from_str(alloc, "FileFault"),
            Status::SourceFailed(exit) => {
                let how = exit.words(alloc)?;
                format!(in alloc; "SourceFailed {how}")
            }
            Status::SourceBreach { breach, line } => {
                let what = breach.words(alloc, line)?;
                format!(in alloc; "SourceBreach {what}")
            }
            Status::SourceIncomplete { stream } => format!(in alloc;
                "SourceIncomplete stream {stream}"
            ),
            Status::Silent { waits } => format!(in alloc; "Silent waits {waits}"),
            Status::ConfigError { side, line } => {
                format!(in alloc; "ConfigError {} line {line}", side.text())
            }
            Status::CheckFailed { line } => format!(in alloc; "CheckFailed line {line}"),
            Status::NoAnswer => String::from_str(alloc, "NoAnswer"),
            Status::DestFailed(exit) => {
                let how = exit.words(alloc)?;
                format!(in alloc; "DestFailed {how}")
            }
            Status::DestBreach { breach, line } => {
                let what = breach.words(alloc, line)?;
                format!(in alloc; "DestBreach {what}")
            }
            Status::DestUnechoed { line } => format!(in alloc; "DestUnechoed line {line}"),
            Status::DestEarly => String::from_str(alloc, "DestEarly"),
            Status::LinkFault => String::from_str(alloc, "LinkFault"),
            Status::StateFault => String::from_str(alloc, "StateFault"),
            Status::SayFault => String::from_str(alloc, "SayFault"),
            Status::TooManyLines => String::from_str(alloc, "TooManyLines"),
            Status::Unbuilt { line } => format!(in alloc; "Unbuilt line {line}"),
            Status::NoMemory => String::from_str(alloc, "NoMemory"),
        }
    }

    /// The number and the words, as the last line says them.
    pub fn text(&self, alloc: Global) -> Result<Bytes, NoMemory>
        ensures { IfOk result (λ text. text ≡ status_text self.now) }
    {
        let number = self.number();
        let words = self.words(alloc)?;
        Ok(Bytes::from_string(format!(in alloc; "{number} {words}")?))
    }
}
