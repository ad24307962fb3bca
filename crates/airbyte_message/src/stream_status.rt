// How far a stream is.
ghost use Rattle.std.specs.Prelude.{◌≡◌};
ghost use Rattle.json_fields.specs.Answer.{IsAnswer};
ghost use Rattle.airbyte_message.specs.Words.{status_text};

/// How far a stream is, as its source tells it.
#[derive(Clone, Copy, Debug, PartialEq, Eq)]
pub enum StreamStatus {
    Started,
    Running,
    Complete,
    Incomplete,
}

impl StreamStatus {
    /// The status's name in a message.
    pub fn text(&self) -> &'static str
        ensures { result.now ≡ status_text self.now }
    {
        match self {
            StreamStatus::Started => "STARTED",
            StreamStatus::Running => "RUNNING",
            StreamStatus::Complete => "COMPLETE",
            StreamStatus::Incomplete => "INCOMPLETE",
        }
    }

    /// The status of this name.
    pub fn of(text: &str) -> Option<Self>
        ensures { IsAnswer (λ status. text.now ≡ status_text status) result }
    {
        if text == "STARTED" {
            return Some(StreamStatus::Started);
        }
        if text == "RUNNING" {
            return Some(StreamStatus::Running);
        }
        if text == "COMPLETE" {
            return Some(StreamStatus::Complete);
        }
        if text == "INCOMPLETE" {
            return Some(StreamStatus::Incomplete);
        }
        None
    }
}
