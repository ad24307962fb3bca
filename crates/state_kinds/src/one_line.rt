// States that are laid out over several lines.
ghost use Rattle.std.specs.Prelude.{IfOk};
ghost use Rattle.json_fields.specs.Answer.{IsAnswer};
ghost use Rattle.airbyte_message.specs.States.{IsState};
ghost use Rattle.state_kinds.specs.OneLine.{on_one_line};

use airbyte_message::{StateMsg, state_of};
use basics::NoMemory;
use json_squeeze::squeeze;
use std::alloc::Global;

/// The state that a value is, which may be laid out over several lines.
pub fn state_over_lines(alloc: Global, text: &[u8]) -> Result<Option<StateMsg>, NoMemory>
    ensures { IfOk result (IsAnswer (IsState (on_one_line text.now))) }
{
    if text.contains(&b'\n') {
        let line = squeeze(alloc, text)?;
        state_of(alloc, line.as_slice())
    } else {
        state_of(alloc, text)
    }
}
