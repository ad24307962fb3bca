// Why a text, a line or a configuration is refused, as a status carries it.
ghost use Rattle.std.specs.Prelude.{◌≡◌};
ghost use Rattle.outside.specs.Faults.{input_text, side_text};

use basics::{NoMemory, StreamNo};

/// What a destination refuses in a line of its input.
#[derive(Clone, Copy, Debug, PartialEq, Eq)]
pub enum InputKind {
    /// The line is no message.
    BadLine,
    /// The catalog has no such stream.
    UnknownStream,
    /// A state without a kind.
    Legacy,
    /// A state of another kind than an earlier one of the load.
    Mixed,
    /// The line is above the length limit.
    TooLong,
    /// The last piece has no newline and is no message.
    TornTail,
}

impl InputKind {
    /// The kind's name in a status.
    pub fn text(&self) -> &'static str
        ensures { result.now ≡ input_text self.now }
    {
        match self {
            InputKind::BadLine => "BadLine",
            InputKind::UnknownStream => "UnknownStream",
            InputKind::Legacy => "Legacy",
            InputKind::Mixed => "Mixed",
            InputKind::TooLong => "TooLong",
            InputKind::TornTail => "TornTail",
        }
    }
}

/// Which of its two children the worker speaks of.
#[derive(Clone, Copy, Debug, PartialEq, Eq)]
pub enum Side {
    Source,
    Dest,
}

impl Side {
    /// The side's name, in a status and in what is said.
    pub fn text(&self) -> &'static str
        ensures { result.now ≡ side_text self.now }
    {
        match self {
            Side::Source => "source",
            Side::Dest => "dest",
        }
    }
}

/// What the worker refuses in a line of a child.
#[derive(Clone, Copy, Debug, PartialEq, Eq)]
pub enum Breach {
    /// The catalog has no such stream.
    UnknownStream,
    /// A state without a kind.
    Legacy,
    /// A state of another kind than one that is saved, or than an earlier one of the attempt.
    Mixed,
    /// A state tells another number of records than were read since the lane's last state.
    Miscount { said: u64, counted: u64 },
    /// The line is above the length limit.
    TooLong,
    /// A state that is the same as none that is pending.
    Stranger,
}

/// Why a text is no configured catalog that is taken, and that no generation is left for a stream of one.
#[derive(Clone, Copy, Debug, PartialEq, Eq)]
pub enum CatalogFault {
    /// The text is no JSON object with an array `streams`.
    NotJson,
    /// More streams than the limit.
    TooMany,
    /// A member that is required is absent, or one has another form.
    Missing { stream: StreamNo },
    /// A sync mode or a destination mode that is none.
    BadMode { stream: StreamNo },
    /// An id above the limit.
    TooLarge { stream: StreamNo },
    /// The minimum generation is above the generation.
    MinimumAboveGeneration { stream: StreamNo },
    /// A stream that is deduplicated has no key.
    NoKey { stream: StreamNo },
    /// The stream stands earlier.
    Twice { stream: StreamNo },
    /// No generation is left for the stream.
    GenerationsSpent { stream: StreamNo },
    NoMemory,
}

impl From<NoMemory> for CatalogFault {
    ghost use Rattle.std.specs.Prelude.{◌≡◌};
    ghost use Rattle.outside.specs.declared.faults.CatalogFault.{CatalogFault};
    ghost use Rattle.outside.specs.declared.faults.CatalogFault.TheVariants as fault;

    ghost from_gives = { λ _ found. found ≡ fault.NoMemory };

    fn from(_: NoMemory) -> Self {
        CatalogFault::NoMemory
    }
}

/// Why a text is no set of saved states, or a state cannot be put into one.
#[derive(Clone, Copy, Debug, PartialEq, Eq)]
pub enum StateFault {
    /// The text has another form, or another version.
    NotJson,
    /// A state without a kind.
    Legacy,
    /// States of one stream and of all streams side by side.
    Mixed,
    /// A stream stands twice, or under another name than its state's.
    Twice,
    /// A generation above the limit.
    TooLarge,
    /// The set has no entry of the stream.
    Unknown,
    /// The source cannot start with this blob.
    Blob,
    /// The blob's place lies behind the source's end.
    OutOfRange,
    NoMemory,
}

impl From<NoMemory> for StateFault {
    ghost use Rattle.std.specs.Prelude.{◌≡◌};
    ghost use Rattle.outside.specs.declared.faults.StateFault.{StateFault};
    ghost use Rattle.outside.specs.declared.faults.StateFault.TheVariants as fault;

    ghost from_gives = { λ _ found. found ≡ fault.NoMemory };

    fn from(_: NoMemory) -> Self {
        StateFault::NoMemory
    }
}

/// Why a text is no configuration of a connector.
#[derive(Clone, Copy, Debug, PartialEq, Eq)]
pub enum ConfigFault {
    /// The text is no JSON object.
    NotJson,
    /// A member is absent or has another form.
    Missing,
    /// A number is not whole or outside its limits.
    OutOfRange,
    NoMemory,
}
