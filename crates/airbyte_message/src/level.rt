// The levels of a log.
ghost use Rattle.std.specs.Prelude.{◌≡◌};
ghost use Rattle.json_fields.specs.Answer.{IsAnswer};
ghost use Rattle.airbyte_message.specs.Words.{level_text};

/// How grave a line of a log is.
#[derive(Clone, Copy, Debug, PartialEq, Eq)]
pub enum Level {
    Fatal,
    Error,
    Warn,
    Info,
    Debug,
    Trace,
}

impl Level {
    /// The level's name in a message.
    pub fn text(&self) -> &'static str
        ensures { result.now ≡ level_text self.now }
    {
        match self {
            Level::Fatal => "FATAL",
            Level::Error => "ERROR",
            Level::Warn => "WARN",
            Level::Info => "INFO",
            Level::Debug => "DEBUG",
            Level::Trace => "TRACE",
        }
    }

    /// The level of this name.
    pub fn of(text: &str) -> Option<Self>
        ensures { IsAnswer (λ level. text.now ≡ level_text level) result }
    {
        if text == "FATAL" {
            return Some(Level::Fatal);
        }
        if text == "ERROR" {
            return Some(Level::Error);
        }
        if text == "WARN" {
            return Some(Level::Warn);
        }
        if text == "INFO" {
            return Some(Level::Info);
        }
        if text == "DEBUG" {
            return Some(Level::Debug);
        }
        if text == "TRACE" {
            return Some(Level::Trace);
        }
        None
    }
}
