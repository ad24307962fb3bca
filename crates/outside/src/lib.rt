//! What every crate of the worker shares: byte texts, names, lists, events, statuses, and the traits of the outside.
#![tactic(auto)]

mod byte_streams;
mod desk;
mod dock;
mod event;
mod fault;
mod faults;
mod feed;
mod line;
mod link;
mod load;
mod no_link;
mod row_store;
mod status;
mod std_desk;
mod std_streams;
mod table;
mod winner_map;
mod winners;

pub use basics::{
    Boxed, Bytes, BytesList, Copies, DEEPEST_JSON, DEEPEST_STATE, FailList, GREATEST_GENERATION,
    LONGEST_DEST_LINE, LONGEST_LINE, LONGEST_NAME, MOST_STREAMS, Name, NoMemory, Path, PathList,
    RoomySequence, Sequence, StreamId, StreamNo,
};
pub use byte_streams::{Sink, Source};
pub use desk::Desk;
pub use dock::{Dock, DockTally, HandDock};
pub use event::{
    AskKind, AttemptPlan, Codes, Event, EventList, Exit, Job, LoadPlan, RawRow, RawRowList,
    StreamPlan,
};
pub use fault::Fault;
pub use faults::{Breach, CatalogFault, ConfigFault, InputKind, Side, StateFault};
pub use feed::Feed;
pub use line::{NumberedRow, NumberedRowList, SeqLine, SeqLineList, StreamIdList};
pub use link::{Link, LinkCounts, LinkFace, Offered, PollKind, Polled};
pub use load::{DockCounts, Limits, Load, Marks, MarksList, Unmerged};
pub use no_link::NoLink;
pub use row_store::RowStore;
pub use status::Status;
pub use std_desk::StdDesk;
pub use std_streams::{StdSink, StdSource};
pub use table::{
    Generations, PlacedRow, PlacedRowList, StreamTable, StreamTableList, TableSide, Tables,
};
pub use winners::Winners;
