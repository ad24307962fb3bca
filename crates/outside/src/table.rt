// What a destination's store holds.
use crate::{LoadPlan, Marks, RawRow, Winners};
use basics::{Sequence, StreamId};

/// The generations from `low` to `high`.
#[derive(Clone, Copy, Debug, PartialEq, Eq)]
pub struct Generations {
    pub low: u64,
    pub high: u64,
}

/// A committed row with its place among all rows that were ever committed, from 1.
#[derive(Debug, Drop)]
pub struct PlacedRow {
    pub place: u64,
    pub row: RawRow,
}

/// Placed rows in the order in which they were committed.
pub type PlacedRowList = Sequence<PlacedRow>;

/// A side of a deduplicated stream: its winners, and the place up to which rows were merged into them.
#[derive(Drop)]
pub struct TableSide {
    pub mark: u64,
    pub winners: Winners,
}

/// What the store holds of one stream.
#[derive(Drop)]
pub struct StreamTable {
    pub id: StreamId,
    pub marks: Marks,
    /// The committed rows that were not deleted.
    pub rows: PlacedRowList,
    pub shown: TableSide,
    pub hidden: TableSide,
    /// What the hidden side is kept for: the minimum and the generation of its load.
    pub hidden_for: Option<Generations>,
}

/// The tables of streams, in the order in which the streams first came.
pub type StreamTableList = Sequence<StreamTable>;

/// What a destination's store holds.
#[derive(Drop)]
pub struct Tables {
    /// The number of the last load, 0 where there was none.
    pub load: u64,
    /// How many rows were ever committed.
    pub places: u64,
    /// The plan of the last load; a stream that was shown in it is not hidden any more.
    pub plan: LoadPlan,
    pub streams: StreamTableList,
}
