// What a reader sees.
ghost use Rattle.std.specs.Prelude.{◌≡◌, IfOk, filter, map};
ghost use Rattle.outside.specs.Tables.{table_in, row_of};
ghost use Rattle.raw_tables.specs.Visible.{IsVisible, AreSeen, is_seen};

use crate::find::index_of;
use crate::read::is_between;
use outside::{
    Copies, Marks, NoMemory, PlacedRow, RawRow, RawRowList, StreamId, StreamTable, Tables,
};
use std::alloc::Global;

// The rows between floor and top, in order of commitment.
fn shown_rows(alloc: Global, marks: &Marks, rows: &[PlacedRow]) -> Result<Vec<RawRow>, NoMemory>
    ensures { IfOk result (λ made. made.items ≡ filter (is_seen marks.now) (map row_of rows.now)) }
{
    let mut made = Vec::new(alloc);
    for placed in rows {
        if is_between(marks, placed.row.generation) {
            made.push(placed.row.copy(alloc)?)?;
        }
    }
    Ok(made)
}

fn in_order(alloc: Global, table: &StreamTable) -> Result<RawRowList, NoMemory>
    ensures { IfOk result (AreSeen table.now) }
{
    let mut rows = shown_rows(alloc, &table.marks, table.rows.as_slice())?;
    rows.sort_by_key(|row| (row.load, row.seq))?;
    Ok(RawRowList::from_vec(rows))
}

/// What a reader sees of a stream: of a deduplicated one the winners of the shown side, in order of their keys, and of
/// every other the rows between floor and top, in order of load and sequence.
pub fn visible(
    alloc: Global,
    tables: &Tables,
    id: &StreamId,
    dedup: bool,
) -> Result<RawRowList, NoMemory>
    ensures { IfOk result (IsVisible dedup (table_in tables.now.streams id.now)) }
{
    match index_of(tables.streams.as_slice(), id) {
        None => Ok(RawRowList::new(alloc)),
        Some(index) => {
            let table = tables.streams.at(index);
            if dedup {
                table.shown.winners.copied(alloc)
            } else {
                in_order(alloc, table)
            }
        }
    }
}
