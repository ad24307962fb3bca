// Laws of messages.
ghost use Rattle.airbyte_message.specs.Laws.{EchoesReadBack, OneEcho, OneMessage};

/// A law: a line is at most one message.
pub fn one_message()
    ensures { OneMessage }
{}

/// A law: a state object and a count have one echo.
pub fn one_echo()
    ensures { OneEcho }
{}

/// A law: the echo of a state reads back as that state, with the count of the destination.
pub fn echoes_read_back()
    ensures { EchoesReadBack }
{}
