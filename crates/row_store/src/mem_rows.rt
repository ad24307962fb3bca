// Rows in memory.
ghost use Rattle.std.specs.Prelude.{◌≡◌, ◌≤◌, ◌<◌, ℕ, IsTrue, ◌↔◌, IfOk, length, drop};
ghost use Rattle.row_store.specs.MemRows.{page_of};

use outside::{
    Copies, FailList, Fault, Name, NoMemory, NumberedRow, NumberedRowList, RowStore, Sequence,
};
use outside_mem::CallCount;
use std::alloc::Global;
use std::marker::Model;

/// A row of a table.
#[derive(Debug, Drop)]
pub struct TableRow {
    pub table: Name,
    pub row: NumberedRow,
}

/// Rows of tables, those of each table in order of their ids.
pub type TableRowList = Sequence<TableRow>;

/// A store that keeps its rows and tells them. Whatever name it is opened by, they are the same; the last one is kept.
/// Of its calls, counted from 1, those whose numbers it was given fail.
#[derive(Drop)]
pub struct MemRows {
    alloc: Global,
    entries: TableRowList,
    calls: CallCount,
    faults: u64,
    opens: u64,
    opened: Option<Name>,
    // Where the last row stood that a page gave.
    given: usize,
}

impl Model for MemRows {
    ghost use Rattle.row_store.specs.MemRows.{RowsState, AreTables};

    ghost Value = { RowsState };

    ghost view = { λ store. record { entries = store.entries; calls = store.calls; faults = store.faults; opens = store.opens; opened = store.opened } };

    ghost invariant = { λ store. AreTables store.entries };
}

impl MemRows {
    ghost use Rattle.std.specs.Prelude.{◌≡◌};
    ghost use Rattle.row_store.specs.MemRows.{AreTables, unopened};

    /// A store of these rows, which was not opened yet.
    pub fn new(alloc: Global, entries: TableRowList, fails: FailList) -> Self
        requires { AreTables entries }
        ensures { result ≡ unopened entries fails }
    {
        MemRows {
            alloc,
            entries,
            calls: CallCount::new(fails),
            faults: 0,
            opens: 0,
            opened: None,
            given: 0,
        }
    }
}

// Copies the first rows of a table behind an id, of the entries from a place on, and says where those behind them begin.
#[tactic(auto, using(crate::proofs::MemLemmas::starts, crate::proofs::MemLemmas::skips, crate::proofs::MemLemmas::keeps, crate::proofs::MemLemmas::is_copied))]
fn copy_page(
    alloc: Global,
    entries: &[TableRow],
    from: usize,
    table: &str,
    after: u64,
    most: u32,
) -> Result<(NumberedRowList, usize), NoMemory>
    requires { from ≤ length entries.now }
    ensures page { IfOk result (λ found. found.0 ≡ page_of (drop from entries.now) table.now after most) }
    ensures within { IfOk result (λ found. found.1 ≤ length entries.now) }
{
    let mut page = NumberedRowList::new(alloc);
    let mut at = from;
    while at < entries.len() && page.len() < most as usize {
        let entry = &entries[at];
        at += 1;
        if entry.row.id > after && entry.table.as_str() == table {
            page.push(entry.row.copy(alloc)?)?;
        }
    }
    Ok((page, at))
}

impl MemRows {
    ghost use Rattle.std.specs.Prelude.{◌≡◌, ◌≤◌, IsTrue, ◌↔◌, Contains, length, drop};
    ghost use Rattle.outside_mem.specs.Calls.{call_made, next_call};
    ghost use Rattle.row_store.specs.MemRows.{page_of};

    // Where to look for the rows behind an id: behind the last row that was given, where that is the table's and not
    // above the id.
    fn place_behind(&self, table: &str, after: u64) -> usize
        ensures within { result ≤ length self.now.entries }
        ensures same { (most : ℕ) → page_of (drop result self.now.entries) table.now after most ≡ page_of self.now.entries table.now after most }
    {
        let entries = self.entries.as_slice();
        if self.given == 0 || self.given > entries.len() {
            return 0;
        }
        let last = &entries[self.given - 1];
        if last.row.id <= after && last.table.as_str() == table {
            return self.given;
        }
        0
    }
}

impl RowStore for MemRows {
    ghost use Rattle.std.specs.Prelude.{◌≡◌, ◌<◌, IfOk, OnOk, IsErrOf, Contains};
    ghost use Rattle.basics.specs.Told.{RoseIf};
    ghost use Rattle.outside.specs.Dock.{OpensCount};
    ghost use Rattle.outside.specs.FaultCounts.{StaysUnlessFailed};
    ghost use Rattle.outside.specs.Rows.{AreInOrder, IsPage, IsFirstAfter};
    ghost use Rattle.outside_mem.specs.Calls.{call_made, next_call};
    ghost use Rattle.outside_mem.specs.MemDesk.{fault_after};
    ghost use Rattle.row_store.specs.MemRows.{seen_of, opened_after, opens_after};

    ghost seen = { seen_of };

    // `Failed` comes exactly where the call is to fail. At `Ok` the name is kept.
    fn open_rows(&mut self, name: &str) -> Result<(), Fault>
        ensures order { AreInOrder (seen_of self.new) }
        ensures faults { RoseIf (IsErrOf result Fault.Failed) self.old.faults self.new.faults }
        ensures stays { StaysUnlessFailed result self.old.faults self.new.faults }
        ensures opens { OpensCount result self.old.opens self.new.opens }
        ensures others { seen_of self.new ≡ record (seen_of self.old) { faults = self.new.faults; opens = self.new.opens } }
        ensures failed { IsErrOf result Fault.Failed ↔ Contains self.old.calls.fails (next_call self.old.calls) }
        ensures counted { self.new ≡ record (self.old) { calls = call_made self.old.calls; faults = fault_after result self.old.faults; opens = opens_after result self.old.opens; opened = opened_after result name.now self.old.opened } }
    {
        if self.calls.is_failing() {
            self.faults = self.faults.saturating_add(1);
            return Err(Fault::Failed);
        }
        self.opened = Some(Name::copy_of(self.alloc, name)?);
        self.opens = self.opens.saturating_add(1);
        Ok(())
    }

    // `Failed` comes exactly where the call is to fail.
    fn page_after(
        &mut self,
        alloc: Global,
        table: &str,
        after: u64,
        most: u32,
    ) -> Result<NumberedRowList, Fault>
        ensures page { IfOk result (IsPage after most) }
        ensures first { IfOk result (IsFirstAfter (seen_of self.old) table.now after most) }
        ensures order { AreInOrder (seen_of self.new) }
        ensures faults { RoseIf (IsErrOf result Fault.Failed) self.old.faults self.new.faults }
        ensures stays { StaysUnlessFailed result self.old.faults self.new.faults }
        ensures others { seen_of self.new ≡ record (seen_of self.old) { faults = self.new.faults } }
        ensures failed { IsErrOf result Fault.Failed ↔ Contains self.old.calls.fails (next_call self.old.calls) }
        ensures counted { self.new ≡ record (self.old) { calls = call_made self.old.calls; faults = fault_after result self.old.faults } }
    {
        if self.calls.is_failing() {
            self.faults = self.faults.saturating_add(1);
            return Err(Fault::Failed);
        }
        let from = self.place_behind(table, after);
        let (page, given) = copy_page(alloc, self.entries.as_slice(), from, table, after, most)?;
        self.given = given;
        Ok(page)
    }
}
