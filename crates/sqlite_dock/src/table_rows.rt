// The tables of a source in SQLite.
ghost use Rattle.std.specs.Prelude.{◌≡◌, ◌≤◌, ◌<◌, ◌^◌, ◌↔◌, IsTrue, IfOk, length};
ghost use Rattle.outside.specs.Rows.{AreRising, IsPage};

use outside::{Fault, NumberedRow, NumberedRowList, RowStore};
use sqlite_calls::{Database, Opener};
use sqlite_tables::SqlRows;
use std::alloc::Global;

/// The tables of a source in an SQLite database: the rows of its table `source_rows`, by the names that stand in `tab`.
///
/// A database that does not exist, or has no such table, is `Failed` at the opening. Before one is opened there is no
/// page. It does not tell its rows.
#[derive(Drop)]
pub struct SqliteRows<O: Opener + Drop> {
    opener: O,
    rows: Option<SqlRows<O::Base>>,
    faults: u64,
    opens: u64,
}

fn open_rows<O: Opener>(opener: &mut O, name: &str) -> Result<SqlRows<O::Base>, Fault> {
    let base = opener.open_existing(name)?;
    SqlRows::over(base)
}

// Whether the ids of these rows rise from above this one, below 2^63.
fn are_rising(rows: &[NumberedRow], after: u64) -> bool
    ensures { IsTrue result ↔ AreRising rows.now after }
{
    let mut before = after;
    for row in rows {
        if row.id <= before || row.id >= 1 << 63 {
            return false;
        }
        before = row.id;
    }
    true
}

// The page behind an id, where the rows are open and it is one.
fn read_page<B: Database + Drop>(
    rows: &mut Option<SqlRows<B>>,
    alloc: Global,
    table: &str,
    after: u64,
    most: u32,
) -> Result<NumberedRowList, Fault>
    ensures { IfOk result (IsPage after most) }
{
    let Some(rows) = rows else {
        return Err(Fault::Failed);
    };
    let page = rows.page_after(alloc, table, after, most)?;
    if page.len() <= most as usize && are_rising(page.as_slice(), after) {
        Ok(page)
    } else {
        Err(Fault::Failed)
    }
}

impl<O: Opener + Drop> SqliteRows<O> {
    ghost use Rattle.std.specs.Prelude.{◌≡◌};
    ghost use Rattle.basics.specs.Told.{RoseIf};

    /// No database is open.
    pub fn new(opener: O) -> Self
        ensures { (result.faults ≡ 0) × (result.opens ≡ 0) }
    {
        SqliteRows {
            opener,
            rows: None,
            faults: 0,
            opens: 0,
        }
    }

    // Counts a fault where it is a failure.
    fn count_fault(&mut self, fault: Fault) -> Fault
        ensures result { result ≡ fault }
        ensures risen { RoseIf (fault ≡ Fault.Failed) self.old.faults self.new.faults }
        ensures stays { (¬ fault ≡ Fault.Failed) → self.new.faults ≡ self.old.faults }
        ensures others { self.new ≡ record (self.old) { faults = self.new.faults } }
    {
        if fault == Fault::Failed {
            self.faults = self.faults.saturating_add(1);
        }
        fault
    }
}

impl<O: Opener + Drop> RowStore for SqliteRows<O> {
    ghost use Rattle.std.specs.Prelude.{None};

    ghost seen = { λ store. record { rows = None; faults = store.faults; opens = store.opens } };

    fn open_rows(&mut self, name: &str) -> Result<(), Fault> {
        self.rows = None;
        match open_rows(&mut self.opener, name) {
            Ok(rows) => {
                self.rows = Some(rows);
                self.opens = self.opens.saturating_add(1);
                Ok(())
            }
            Err(fault) => Err(self.count_fault(fault)),
        }
    }

    fn page_after(
        &mut self,
        alloc: Global,
        table: &str,
        after: u64,
        most: u32,
    ) -> Result<NumberedRowList, Fault> {
        match read_page(&mut self.rows, alloc, table, after, most) {
            Ok(page) => Ok(page),
            Err(fault) => Err(self.count_fault(fault)),
        }
    }
}
