// One page of rows is merged.
ghost use Rattle.std.specs.Prelude.{◌≡◌, ◌<◌, ◌≤◌, ◌*◌, ◌^◌, length, slice_index, is_some, IfOk, IfSome, OnOk, IsErrOf};
ghost use Rattle.basics.specs.Told.{RoseIf};
ghost use Rattle.outside.specs.Winners.{put_winners, winner_in};
ghost use Rattle.outside.specs.Dock.{DockGrew, DockMoves, tables, ReadAtMost, IsPlace};
ghost use Rattle.outside.specs.Tables.{page_of};
ghost use Rattle.dedup_merge.specs.Winners.{key_count};
ghost use Rattle.dedup_merge.specs.Steps.{TakesFrom, ReadsOnly, side_of_store, reads_for};
ghost use Rattle.dedup_merge.specs.Faults.{fault_of};
ghost use Rattle.dedup_merge.specs.Pages.{PageAdds, IsAnswer, TakesIn, rows_of_page};
ghost use Rattle.dedup_merge.specs.declared.pages.MergeFault.TheVariants as merge_fault;

use crate::rows::{take_after, take_known};
use outside::{Dock, Fault, NoMemory, RawRow, RawRowList, StreamNo, Winners};
use std::alloc::Global;

/// Whether rows are left to merge.
#[derive(Clone, Copy, Debug, PartialEq, Eq)]
pub enum Merged {
    More,
    Done,
}

/// Why a page could not be merged.
#[derive(Clone, Copy, Debug, PartialEq, Eq)]
pub enum MergeFault {
    /// A call on the store failed: the page is merged or not.
    StoreFault,
    /// Nothing was merged.
    NoMemory,
}

impl From<NoMemory> for MergeFault {
    ghost from_gives = { λ _ given. given ≡ merge_fault.NoMemory };

    fn from(_: NoMemory) -> Self {
        MergeFault::NoMemory
    }
}

impl From<Fault> for MergeFault {
    ghost from_gives = { λ why given. given ≡ fault_of why };

    fn from(why: Fault) -> Self {
        match why {
            Fault::Failed => MergeFault::StoreFault,
            Fault::NoMemory => MergeFault::NoMemory,
        }
    }
}

// The winner of a key on the side, where the store gives one of that key.
fn winner_of_key<D: Dock>(
    alloc: Global,
    dock: &mut D,
    stream: StreamNo,
    key: &[u8],
) -> Result<Option<RawRow>, Fault>
    requires { stream < length (D.seen dock.old).face.side_marks }
    ensures only { ReadsOnly (D.seen dock.old) (D.seen dock.new) }
    ensures read { ReadAtMost 1 (D.seen dock.old).rows_read (D.seen dock.new).rows_read }
    ensures winner { IfOk result (λ winner. IfSome (side_of_store stream (tables (D.seen dock.old))) (λ before. winner ≡ winner_in before key.now)) }
    ensures own { IfOk result (λ winner. IfSome winner (λ row. row.key ≡ key.now)) }
    ensures faults { RoseIf (IsErrOf result Fault.Failed) (D.seen dock.old).counts.store_faults (D.seen dock.new).counts.store_faults }
{
    match dock.read_winner(alloc, stream, key)? {
        Some(winner) => {
            if winner.key.as_slice() == key {
                Ok(Some(winner))
            } else {
                Ok(None)
            }
        }
        None => Ok(None),
    }
}

// Takes in one row of the page; the side's winner is read for the first row of a key.
fn take_row<D: Dock>(
    alloc: Global,
    dock: &mut D,
    stream: StreamNo,
    best: &mut Winners,
    row: &RawRow,
) -> Result<(), Fault>
    requires { stream < length (D.seen dock.old).face.side_marks }
    ensures only { ReadsOnly (D.seen dock.old) (D.seen dock.new) }
    ensures read { ReadAtMost (reads_for (winner_in best.old row.now.key)) (D.seen dock.old).rows_read (D.seen dock.new).rows_read }
    ensures takes { OnOk result (TakesFrom (side_of_store stream (tables (D.seen dock.old))) row.now best.old best.new) }
    ensures faults { RoseIf (IsErrOf result Fault.Failed) (D.seen dock.old).counts.store_faults (D.seen dock.new).counts.store_faults }
{
    if take_known(alloc, best, row)? {
        return Ok(());
    }
    let held = winner_of_key(alloc, dock, stream, row.key.as_slice())?;
    take_after(alloc, best, held, row)?;
    Ok(())
}

// The winners of the keys of a page, those of the side before taken in.
fn winners_of_page<D: Dock>(
    alloc: Global,
    dock: &mut D,
    stream: StreamNo,
    rows: &[RawRow],
) -> Result<RawRowList, Fault>
    requires { stream < length (D.seen dock.old).face.side_marks }
    ensures only { ReadsOnly (D.seen dock.old) (D.seen dock.new) }
    ensures read { ReadAtMost (key_count rows.now) (D.seen dock.old).rows_read (D.seen dock.new).rows_read }
    ensures winners { IfOk result (λ made. IfSome (side_of_store stream (tables (D.seen dock.old))) (λ before. TakesIn rows.now before (put_winners before made))) }
    ensures faults { RoseIf (IsErrOf result Fault.Failed) (D.seen dock.old).counts.store_faults (D.seen dock.new).counts.store_faults }
{
    let mut best = Winners::new(alloc);
    for row in rows {
        take_row(alloc, dock, stream, &mut best, row)?;
    }
    Ok(best.into_rows(alloc)?)
}

/// Merges the next rows of a stream that its side has not merged, at most `page` of them: reads them and the winner of
/// each of their keys, and puts the winners of both into the store.
///
/// `Done` comes exactly where no such row is left afterwards.
pub fn merge_page<D: Dock>(
    alloc: Global,
    dock: &mut D,
    stream: StreamNo,
    page: u32,
) -> Result<Merged, MergeFault>
    requires known { stream < length (D.seen dock.old).face.side_marks }
    requires some { 0 < page }
    ensures grew { DockGrew (D.seen dock.old) (D.seen dock.new) }
    ensures moves { DockMoves (D.seen dock.old) (D.seen dock.new) }
    ensures merges { PageAdds result stream page (D.seen dock.old) (D.seen dock.new) }
    ensures answer { IfOk result (λ merged. IfSome (tables (D.seen dock.new)) (λ store. IsAnswer merged store stream)) }
    ensures rows_read { IfSome (tables (D.seen dock.old)) (λ store. ReadAtMost (rows_of_page store stream page) (D.seen dock.old).rows_read (D.seen dock.new).rows_read) }
    ensures rows_capped { ReadAtMost (2 * page) (D.seen dock.old).rows_read (D.seen dock.new).rows_read }
    ensures risen { result ≡ Ok Merged.More → slice_index (D.seen dock.old).face.side_marks stream < slice_index (D.seen dock.new).face.side_marks stream }
    ensures kept { IfOk result (λ _. slice_index (D.seen dock.old).face.side_marks stream ≤ slice_index (D.seen dock.new).face.side_marks stream) }
    ensures place { IfOk result (λ _. IsPlace (slice_index (D.seen dock.new).face.side_marks stream)) }
    ensures faults { RoseIf (IsErrOf result MergeFault.StoreFault) (D.seen dock.old).counts.store_faults (D.seen dock.new).counts.store_faults }
    ensures counts { (D.seen dock.new).counts ≡ record ((D.seen dock.old).counts) { store_faults = (D.seen dock.new).counts.store_faults } }
{
    let next = dock.read_unmerged(alloc, stream, page)?;
    let winners = winners_of_page(alloc, dock, stream, next.rows.as_slice())?;
    dock.merge(stream, &winners, next.mark)?;
    if next.more {
        Ok(Merged::More)
    } else {
        Ok(Merged::Done)
    }
}
