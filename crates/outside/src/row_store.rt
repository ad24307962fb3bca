// The tables of rows that a source copies.
ghost use Rattle.std.specs.Prelude.{◌≡◌, ◌<◌, IfOk, IsErrOf};
ghost use Rattle.basics.specs.Told.{RoseIf};
ghost use Rattle.outside.specs.Dock.{OpensCount};
ghost use Rattle.outside.specs.FaultCounts.{StaysUnlessFailed};
ghost use Rattle.outside.specs.Rows.{RowsSeen, AreInOrder, IsPage, IsFirstAfter};

use crate::{Fault, NumberedRowList};
use std::alloc::Global;

/// Where a source's rows are: tables by name, each with rows in order of their ids.
///
/// A call changes only what its clauses name. Where a store tells its rows, they stand in order, and a page is the
/// first of them; a real store does not tell them. Its counts never fall, and end at the largest `u64`.
pub trait RowStore {
    /// The rows of each table where they are told, and the counts.
    ghost seen: { Self → RowsSeen };

    /// Opens the store of this name. `Failed` raises `faults`.
    fn open_rows(&mut self, name: &str) -> Result<(), Fault>
        ensures order { AreInOrder (seen self.new) }
        ensures faults { RoseIf (IsErrOf result Fault.Failed) (seen self.old).faults (seen self.new).faults }
        ensures stays { StaysUnlessFailed result (seen self.old).faults (seen self.new).faults }
        ensures opens { OpensCount result (seen self.old).opens (seen self.new).opens }
        ensures others { seen self.new ≡ record (seen self.old) { faults = (seen self.new).faults; opens = (seen self.new).opens } };

    /// The first rows of a table with ids above `after`, in order of their ids, at most `most` of them. There is none
    /// where the table has none, or there is no such table. Ids begin at 1. `Failed` raises `faults`; a store that
    /// finds rows out of order answers so.
    fn page_after(
        &mut self,
        alloc: Global,
        table: &str,
        after: u64,
        most: u32,
    ) -> Result<NumberedRowList, Fault>
        requires { 0 < most }
        ensures page { IfOk result (IsPage after most) }
        ensures first { IfOk result (IsFirstAfter (seen self.old) table.now after most) }
        ensures order { AreInOrder (seen self.new) }
        ensures faults { RoseIf (IsErrOf result Fault.Failed) (seen self.old).faults (seen self.new).faults }
        ensures stays { StaysUnlessFailed result (seen self.old).faults (seen self.new).faults }
        ensures others { seen self.new ≡ record (seen self.old) { faults = (seen self.new).faults } };
}
