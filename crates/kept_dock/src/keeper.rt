// What keeps a destination's tables.
use outside::{
    Fault, LoadPlan, MarksList, RawRow, RawRowList, Sequence, StreamIdList, StreamNo, Unmerged,
};
use std::alloc::Global;

/// A load that was opened, with the marks of its sides in the order of its streams.
#[derive(Drop)]
pub struct KeptLoad {
    pub load: u64,
    pub side_marks: Sequence<u64>,
}

/// What keeps a destination's tables, by the rules of `Dock`. No call promises anything, since no contract can say what a
/// disk holds: the dock above tests what it must. Before a store is opened its other calls fail. A call that answers a
/// fault has made its change wholly or not at all, and not where memory was wanting.
pub trait Keeper {
    /// Opens the store of that name, or makes it; one that was open is closed first. What stands there and is no store of
    /// the form is `Failed`, and stays as it was.
    fn open(&mut self, name: &str) -> Result<(), Fault>;

    /// The marks of these streams, in their order.
    fn marks(&mut self, alloc: Global, streams: &StreamIdList) -> Result<MarksList, Fault>;

    /// Opens a load of these streams, one above the last, in place of that which was open.
    fn open_load(&mut self, plan: &LoadPlan, moment: u64) -> Result<KeptLoad, Fault>;

    /// Commits rows of a stream of the load.
    fn commit(&mut self, stream: StreamNo, rows: &RawRowList) -> Result<(), Fault>;

    /// The next rows that the side of a stream has not merged, at most `most` of them.
    fn unmerged(&mut self, alloc: Global, stream: StreamNo, most: u32) -> Result<Unmerged, Fault>;

    /// The winner of a key on the side of a stream.
    fn winner(
        &mut self,
        alloc: Global,
        stream: StreamNo,
        key: &[u8],
    ) -> Result<Option<RawRow>, Fault>;

    /// Puts winners in the place of those of their keys, and sets the mark of the stream's side.
    fn merge(&mut self, stream: StreamNo, winners: &RawRowList, mark: u64) -> Result<(), Fault>;

    /// Makes a stream's hidden side the shown one; a side that is the shown one already stays.
    fn show(&mut self, stream: StreamNo) -> Result<(), Fault>;
}
