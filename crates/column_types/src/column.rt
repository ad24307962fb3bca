// A column.
ghost use Rattle.std.specs.Prelude.{◌≡◌, IfOk};

use crate::ColumnType;
use basics::{Copies, Name, NoMemory, Sequence};
use std::alloc::Global;

/// A column of a stream.
#[derive(Debug, Drop)]
pub struct Column {
    pub name: Name,
    pub kind: ColumnType,
}

/// Columns in order.
pub type Columns = Sequence<Column>;

impl Copies for Column {
    fn copy(&self, alloc: Global) -> Result<Self, NoMemory> {
        Ok(Column {
            name: self.name.copy(alloc)?,
            kind: self.kind,
        })
    }
}
