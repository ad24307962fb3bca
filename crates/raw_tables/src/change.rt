// What one event does to the table of one stream.
ghost use Rattle.std.specs.Prelude.{◌≡◌, filter, OnOk, OnErr};
ghost use Rattle.outside.specs.Tables.{empty_side, empty_table, rises_above, raised_to, is_kept_for, opened_table, opened_shown, opened_hidden, committed_table, merged_side, merged_table, shown_table, shown_hidden, is_from};

use generation_rules::floor;
use outside::{
    Generations, Marks, NoMemory, PlacedRow, PlacedRowList, RawRowList, StreamId, StreamPlan,
    StreamTable, TableSide, Winners,
};
use std::alloc::Global;

/// The marks of a stream that never came.
pub const FIRST_MARKS: Marks = Marks {
    floor: 0,
    top: None,
    greatest: None,
};

fn new_side(alloc: Global) -> TableSide
    ensures { result ≡ empty_side }
{
    TableSide {
        mark: 0,
        winners: Winners::new(alloc),
    }
}

/// The table of a stream that never came. It takes no memory.
pub fn new_table(alloc: Global, id: StreamId) -> StreamTable
    ensures { result ≡ empty_table id }
{
    StreamTable {
        id,
        marks: FIRST_MARKS,
        rows: PlacedRowList::new(alloc),
        shown: new_side(alloc),
        hidden: new_side(alloc),
        hidden_for: None,
    }
}

fn does_rise(before: Option<u64>, generation: u64) -> bool
    ensures { result ≡ rises_above before generation }
{
    match before {
        None => true,
        Some(before) => before < generation,
    }
}

fn raise(before: Option<u64>, generation: u64) -> Option<u64>
    ensures { result ≡ raised_to before generation }
{
    match before {
        None => Some(generation),
        Some(before) => Some(before.max(generation)),
    }
}

fn is_kept(kept: Option<Generations>, plan: &StreamPlan) -> bool
    ensures { result ≡ is_kept_for kept plan.now }
{
    match kept {
        None => false,
        Some(kept) => kept.low == plan.minimum && kept.high == plan.generation,
    }
}

fn open_shown(mut table: StreamTable, plan: &StreamPlan) -> StreamTable
    ensures { result ≡ opened_shown plan.now table }
{
    if does_rise(table.marks.top, plan.generation) {
        table.shown.mark = 0;
    }
    table.marks.top = raise(table.marks.top, plan.generation);
    table.marks.greatest = raise(table.marks.greatest, plan.generation);
    table
}

fn open_hidden(alloc: Global, mut table: StreamTable, plan: &StreamPlan) -> StreamTable
    ensures { result ≡ opened_hidden plan.now table }
{
    if !is_kept(table.hidden_for, plan) {
        table.hidden = new_side(alloc);
    }
    table.hidden_for = Some(Generations {
        low: plan.minimum,
        high: plan.generation,
    });
    table.marks.greatest = raise(table.marks.greatest, plan.generation);
    table
}

/// The table after a load with this plan was opened. It takes no memory.
pub fn open(alloc: Global, table: StreamTable, plan: &StreamPlan) -> StreamTable
    ensures { result ≡ opened_table plan.now table }
{
    if plan.hidden {
        open_hidden(alloc, table, plan)
    } else {
        open_shown(table, plan)
    }
}

/// Puts placed rows behind the table's.
pub fn add_rows(table: &mut StreamTable, rows: Vec<PlacedRow>) -> Result<(), NoMemory>
    ensures ok { OnOk result (table.new ≡ committed_table rows.items table.old) }
    ensures err { OnErr result (table.new ≡ table.old) }
{
    table.rows.append(rows)
}

fn merge_side(
    alloc: Global,
    side: &mut TableSide,
    winners: RawRowList,
    mark: u64,
) -> Result<(), NoMemory>
    ensures ok { OnOk result (side.new ≡ merged_side winners mark side.old) }
    ensures err { OnErr result (side.new ≡ side.old) }
{
    side.winners.put(alloc, winners)?;
    side.mark = mark;
    Ok(())
}

/// Merges winners into the side that the load uses.
pub fn merge_winners(
    alloc: Global,
    table: &mut StreamTable,
    plan: &StreamPlan,
    winners: RawRowList,
    mark: u64,
) -> Result<(), NoMemory>
    ensures ok { OnOk result (table.new ≡ merged_table plan.now winners mark table.old) }
    ensures err { OnErr result (table.new ≡ table.old) }
{
    if plan.hidden {
        merge_side(alloc, &mut table.hidden, winners, mark)
    } else {
        merge_side(alloc, &mut table.shown, winners, mark)
    }
}

fn keep_from(floor: u64, rows: PlacedRowList) -> PlacedRowList
    ensures { result ≡ filter (is_from floor) rows }
{
    let mut kept = rows.into_vec();
    kept.retain(|placed| floor <= placed.row.generation);
    PlacedRowList::from_vec(kept)
}

fn show_hidden(alloc: Global, table: StreamTable, plan: &StreamPlan) -> StreamTable
    ensures { result ≡ shown_hidden plan.now table }
{
    let floor = floor(table.marks.floor, plan.minimum);
    StreamTable {
        id: table.id,
        marks: Marks {
            floor,
            top: Some(plan.generation),
            greatest: table.marks.greatest,
        },
        rows: keep_from(floor, table.rows),
        shown: table.hidden,
        hidden: new_side(alloc),
        hidden_for: None,
    }
}

/// The table after the stream was shown in a load with this plan. It takes no memory.
pub fn show(alloc: Global, table: StreamTable, plan: &StreamPlan) -> StreamTable
    ensures { result ≡ shown_table plan.now table }
{
    if plan.hidden {
        show_hidden(alloc, table, plan)
    } else {
        table
    }
}
