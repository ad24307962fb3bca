// What a destination's store and its load are asked and answer, besides rows.
ghost use Rattle.std.specs.Prelude.{◌≡◌, IsTrue, ◌↔◌};
ghost use Rattle.outside.specs.Limits.{AreLimits};

use crate::RawRowList;
use basics::{Copies, NoMemory, Sequence};
use std::alloc::Global;

/// How much a load may hold at once, and how it works.
#[derive(Clone, Copy, Debug, PartialEq, Eq)]
pub struct Limits {
    /// How many records may wait, from 1 to 1,000,000.
    pub slots: u32,
    /// How many bytes of records may wait, from 20,971,520, so that the longest line fits, to 536,870,912.
    pub bytes: u64,
    /// How many records are prepared and committed together, from 1 to `slots`.
    pub batch: u32,
    /// How many threads prepare records, from 1 to 16.
    pub workers: u32,
    /// How many rows are merged together, from 1.
    pub page: u32,
}

impl Limits {
    /// Whether each number lies in its range.
    pub fn are_limits(&self) -> bool
        ensures { IsTrue result ↔ AreLimits self.now }
    {
        self.slots >= 1
            && self.slots <= 1_000_000
            && self.bytes >= 20_971_520
            && self.bytes <= 536_870_912
            && self.batch >= 1
            && self.batch <= self.slots
            && self.workers >= 1
            && self.workers <= 16
            && self.page >= 1
    }
}

/// What a store has of one stream.
#[derive(Clone, Copy, Debug, PartialEq, Eq)]
pub struct Marks {
    /// Rows of a generation below this one are gone.
    pub floor: u64,
    /// The greatest generation that is shown, where the stream was loaded before.
    pub top: Option<u64>,
    /// The greatest generation that was ever opened, where there was one.
    pub greatest: Option<u64>,
}

impl Copies for Marks {
    fn copy(&self, _alloc: Global) -> Result<Self, NoMemory> {
        Ok(*self)
    }
}

/// The marks of several streams, in the order in which they were asked for.
pub type MarksList = Sequence<Marks>;

/// A load that was opened.
#[derive(Clone, Copy, Debug, PartialEq, Eq)]
pub struct Load {
    /// From 1; each load's number is one above the last.
    pub load: u64,
    /// When it began, in milliseconds since 1970.
    pub moment: u64,
}

/// Rows that are not merged yet, in the order in which they were committed.
#[derive(Debug, Drop)]
pub struct Unmerged {
    pub rows: RawRowList,
    /// The place of the last of them among all committed rows, from 1; where there is none, the place up to which
    /// the side is merged.
    pub mark: u64,
    /// Whether there are more behind them.
    pub more: bool,
}

impl Copies for Unmerged {
    fn copy(&self, alloc: Global) -> Result<Self, NoMemory> {
        Ok(Unmerged {
            rows: self.rows.copy(alloc)?,
            mark: self.mark,
            more: self.more,
        })
    }
}

/// What a destination's store counts. No count falls, and each ends at the largest `u64`.
#[derive(Clone, Copy, Debug, PartialEq, Eq)]
pub struct DockCounts {
    /// Polls that failed.
    pub read_faults: u64,
    /// Calls on the store that failed.
    pub store_faults: u64,
    /// Lines that could not be written.
    pub write_faults: u64,
    /// Polls that brought nothing.
    pub quiet: u64,
}
