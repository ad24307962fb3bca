// Lines and rows with their numbers.
use basics::{Bytes, Copies, NoMemory, Sequence, StreamId};
use std::alloc::Global;

/// A line of a record with its number among those of its load, from 0.
#[derive(Debug, Drop)]
pub struct SeqLine {
    pub seq: u64,
    pub line: Bytes,
}

/// Lines with their numbers, in order.
pub type SeqLineList = Sequence<SeqLine>;

impl Copies for SeqLine {
    fn copy(&self, alloc: Global) -> Result<Self, NoMemory> {
        Ok(SeqLine {
            seq: self.seq,
            line: self.line.copy(alloc)?,
        })
    }
}

/// A row of a source's table with its id, from 1.
#[derive(Debug, Drop)]
pub struct NumberedRow {
    pub id: u64,
    /// The row as a JSON text.
    pub body: Bytes,
}

/// Rows of a source's table, in order of their ids.
pub type NumberedRowList = Sequence<NumberedRow>;

impl Copies for NumberedRow {
    fn copy(&self, alloc: Global) -> Result<Self, NoMemory> {
        Ok(NumberedRow {
            id: self.id,
            body: self.body.copy(alloc)?,
        })
    }
}

/// Streams by name, in the order in which they are asked for.
pub type StreamIdList = Sequence<StreamId>;
