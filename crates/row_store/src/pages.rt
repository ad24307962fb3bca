// Reading a whole table.
ghost use Rattle.std.specs.Prelude.{◌≡◌, ◌<◌, IfOk, IsErrOf};
ghost use Rattle.basics.specs.Told.{RoseIf};
ghost use Rattle.outside.specs.FaultCounts.{StaysUnlessFailed};
ghost use Rattle.outside.specs.Rows.{AreInOrder, AreRising};
ghost use Rattle.row_store.specs.Pages.{AreOfTable, SoFar, AddsPage, last_id_of};

use outside::{Fault, NumberedRow, NumberedRowList, RowStore};
use std::alloc::Global;

/// How many rows are asked for at a time.
const PAGE: u32 = 1000;

/// All rows of a table, in order of their ids. They are read in pages of 1,000. `Failed` comes only where a page could
/// not be read.
pub fn all_rows<R: RowStore>(
    alloc: Global,
    store: &mut R,
    table: &str,
) -> Result<NumberedRowList, Fault>
    ensures rising { IfOk result (λ rows. AreRising rows 0) }
    ensures rows { IfOk result (AreOfTable (R.seen store.old) table.now) }
    ensures order { AreInOrder (R.seen store.new) }
    ensures faults { RoseIf (IsErrOf result Fault.Failed) (R.seen store.old).faults (R.seen store.new).faults }
    ensures stays { StaysUnlessFailed result (R.seen store.old).faults (R.seen store.new).faults }
    ensures others { R.seen store.new ≡ record (R.seen store.old) { faults = (R.seen store.new).faults } }
{
    let mut rows = NumberedRowList::new(alloc);
    let mut after = 0;
    while let Some(last) = add_page(alloc, store, table, after, &mut rows)? {
        after = last;
    }
    Ok(rows)
}

// Puts the page behind an id behind the rows so far, and answers its last id. There is none where the page is empty.
#[tactic(auto, using(crate::proofs::PageLemmas::adds))]
fn add_page<R: RowStore>(
    alloc: Global,
    store: &mut R,
    table: &str,
    after: u64,
    rows: &mut NumberedRowList,
) -> Result<Option<u64>, Fault>
    requires { SoFar (R.seen store.old).rows table.now after rows.old }
    ensures more { IfOk result (AddsPage (R.seen store.old).rows table.now after rows.old rows.new) }
    ensures order { AreInOrder (R.seen store.new) }
    ensures faults { RoseIf (IsErrOf result Fault.Failed) (R.seen store.old).faults (R.seen store.new).faults }
    ensures stays { StaysUnlessFailed result (R.seen store.old).faults (R.seen store.new).faults }
    ensures others { R.seen store.new ≡ record (R.seen store.old) { faults = (R.seen store.new).faults } }
{
    let page = store.page_after(alloc, table, after, PAGE)?;
    if page.is_empty() {
        return Ok(None);
    }
    let last = last_id(page.as_slice(), after);
    rows.append(page.into_vec())?;
    Ok(Some(last))
}

// The id of the last row, or this one where there is none.
fn last_id(rows: &[NumberedRow], before: u64) -> u64
    ensures { result ≡ last_id_of rows.now before }
{
    match rows.last() {
        Some(row) => row.id,
        None => before,
    }
}
