// Streams that stand once.
ghost use Rattle.std.specs.Prelude.{IfOk};
ghost use Rattle.std.specs.Option.{option_copied};
ghost use Rattle.state_kinds.specs.Store.{AddsOnce};

use basics::{Copies, NoMemory, StreamId};
use std::alloc::Global;
use stream_index::StreamIndex;

/// Puts a stream, where there is one, behind the others; `false` where it is there already.
pub fn add_once(
    alloc: Global,
    index: &mut StreamIndex,
    id: Option<&StreamId>,
) -> Result<bool, NoMemory>
    ensures { IfOk result (λ is_new. AddsOnce index.old (option_copied id.entry) index.new is_new) }
{
    match id {
        Some(id) => {
            let is_new = index.add(id.copy(alloc)?)?;
            Ok(is_new)
        }
        None => Ok(true),
    }
}
