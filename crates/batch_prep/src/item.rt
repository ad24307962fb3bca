// What is prepared, and by what.
use basics::{Path, PathList, StreamNo};
use column_types::Columns;
use outside::SeqLineList;

/// How the rows of a stream are made in a load.
#[derive(Debug, Drop)]
pub struct PrepPlan {
    pub stream: StreamNo,
    /// The number of the load, from 1.
    pub load: u64,
    /// When the load began, in milliseconds since 1970.
    pub moment: u64,
    pub generation: u64,
    pub columns: Columns,
    /// The places of the primary key. Without one, the key text is empty.
    pub key: PathList,
    /// The place of the cursor. Without one, the cursor is null.
    pub cursor: Option<Path>,
}

/// A batch of lines of one stream.
#[derive(Debug, Drop)]
pub struct WorkItem {
    /// The number of the batch.
    pub batch: u64,
    pub plan: PrepPlan,
    pub lines: SeqLineList,
}
