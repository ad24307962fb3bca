// How the rows of a table are ordered.
ghost use Rattle.std.specs.Prelude.{◌≡◌, IfOk};
ghost use Rattle.table_source.specs.Keyed.{IsKeyingOf};

use basics::{Copies, NoMemory, Path, PathList};
use catalog::ConfStream;
use column_types::{Columns, columns_of};
use std::alloc::Global;

/// A row's arrays and objects nest at most so deep.
pub const DEEPEST_ROW: usize = 100;

/// What the rows of a stream are ordered by: the values at its cursor and at the paths of its key. The columns say which of
/// them are instants.
#[derive(Debug, Drop)]
pub struct Keying {
    pub columns: Columns,
    pub key: PathList,
    /// Without one the cursor is null.
    pub cursor: Option<Path>,
}

/// What the rows of a configured stream are ordered by.
pub fn keying_of(alloc: Global, stream: &ConfStream) -> Result<Keying, NoMemory>
    ensures { IfOk result (IsKeyingOf stream.now) }
{
    Ok(Keying {
        columns: columns_of(alloc, stream.schema.as_slice())?,
        key: stream.key.copy(alloc)?,
        cursor: stream.cursor.copy(alloc)?,
    })
}
