// The types of failures.
ghost use Rattle.std.specs.Prelude.{◌≡◌};
ghost use Rattle.json_fields.specs.Answer.{IsAnswer};
ghost use Rattle.airbyte_message.specs.Words.{failure_text};

/// Who is to mend a failure.
#[derive(Clone, Copy, Debug, PartialEq, Eq)]
pub enum FailureType {
    /// The connector's makers.
    SystemError,
    /// The user, in the configuration.
    ConfigError,
    /// Nobody: it may pass.
    TransientError,
}

impl FailureType {
    /// The type's name in a message.
    pub fn text(&self) -> &'static str
        ensures { result.now ≡ failure_text self.now }
    {
        match self {
            FailureType::SystemError => "system_error",
            FailureType::ConfigError => "config_error",
            FailureType::TransientError => "transient_error",
        }
    }

    /// The type of this name.
    pub fn of(text: &str) -> Option<Self>
        ensures { IsAnswer (λ failure. text.now ≡ failure_text failure) result }
    {
        if text == "system_error" {
            return Some(FailureType::SystemError);
        }
        if text == "config_error" {
            return Some(FailureType::ConfigError);
        }
        if text == "transient_error" {
            return Some(FailureType::TransientError);
        }
        None
    }
}
