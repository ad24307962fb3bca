// The winners of rows.
ghost use Rattle.std.specs.Prelude.{◌≡◌, IfOk, IfSome, OnOk, OnErr, None};
ghost use Rattle.outside.specs.Winners.{put_winner, winner_in};
ghost use Rattle.dedup_merge.specs.Winners.{AreWinnersOf, has_key};
ghost use Rattle.dedup_merge.specs.Steps.{TakesRow, TakesKnown, TakesKeyed};

use crate::candidate::{cursor_value, exceeds};
use outside::{Copies, NoMemory, RawRow, RawRowList, Winners};
use std::alloc::Global;

// Puts a row in the place of its key's.
fn put(alloc: Global, best: &mut Winners, row: RawRow) -> Result<(), NoMemory>
    ensures { OnOk result (best.new ≡ put_winner best.old row) }
{
    let mut rows = RawRowList::new(alloc);
    rows.push(row)?;
    best.put(alloc, rows)
}

/// Takes in a row of a key that has no best yet, after the row that was its winner before, where there is one.
pub fn take_after(
    alloc: Global,
    best: &mut Winners,
    held: Option<RawRow>,
    row: &RawRow,
) -> Result<(), NoMemory>
    requires { IfSome held (λ held. held.key ≡ row.now.key) }
    ensures { OnOk result (TakesRow held row.now best.old best.new) }
{
    match held {
        Some(held) => {
            if exceeds(alloc, row, &held)? {
                put(alloc, best, row.copy(alloc)?)
            } else {
                put(alloc, best, held)
            }
        }
        None => {
            let _value = cursor_value(alloc, row.cursor.as_slice())?;
            put(alloc, best, row.copy(alloc)?)
        }
    }
}

/// Takes in a row of a key that has a best, and answers whether it has one.
pub fn take_known(alloc: Global, best: &mut Winners, row: &RawRow) -> Result<bool, NoMemory>
    ensures { IfOk result (λ known. TakesKnown known row.now best.old best.new) }
{
    let wins = match best.get(row.key.as_slice()) {
        None => return Ok(false),
        Some(held) => exceeds(alloc, row, held)?,
    };
    if wins {
        put(alloc, best, row.copy(alloc)?)?;
    }
    Ok(true)
}

// Takes in one row after the others.
fn take_row(alloc: Global, best: &mut Winners, row: &RawRow) -> Result<(), NoMemory>
    ensures { OnOk result (TakesRow (winner_in best.old row.now.key) row.now best.old best.new) }
{
    if take_known(alloc, best, row)? {
        return Ok(());
    }
    take_after(alloc, best, None, row)
}

// Whether a row takes part.
fn is_keyed(row: &RawRow) -> bool
    ensures { result ≡ has_key row.now }
{
    !row.key.as_slice().is_empty()
}

// Takes in one row after the others, where it takes part.
#[tactic(auto, using(crate::proofs::StepLemmas::keyed_none, crate::proofs::StepLemmas::keyed_some))]
fn take_keyed(alloc: Global, best: &mut Winners, row: &RawRow) -> Result<(), NoMemory>
    ensures { OnOk result (TakesKeyed (has_key row.now) row.now best.old best.new) }
{
    if !is_keyed(row) {
        return Ok(());
    }
    take_row(alloc, best, row)?;
    Ok(())
}

/// The winner of each key, in order of the keys: the row that no other row of the key exceeds in cursor, load and
/// sequence, and of those equal in all three the first. Rows with an empty key take no part.
pub fn winners(alloc: Global, rows: &RawRowList) -> Result<RawRowList, NoMemory>
    ensures { IfOk result (AreWinnersOf rows.now) }
{
    let mut best = Winners::new(alloc);
    for row in rows.as_slice() {
        take_keyed(alloc, &mut best, row)?;
    }
    best.into_rows(alloc)
}
