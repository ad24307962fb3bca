// One event after another.
ghost use Rattle.std.specs.Prelude.{◌≡◌, ◌<◌, ◌+◌, ◌^◌, length, fold, IfOk, OnOk, OnErr};
ghost use Rattle.outside.specs.Tables.{placed_after, tables_of, tables_after, tables_opened, tables_committed, tables_merged, tables_shown, plan_at, no_tables, opened_stream, committed_table, merged_table, shown_table, changed};

use crate::change::{self, new_table};
use crate::find::index_of;
use outside::{
    Copies, Event, EventList, LoadPlan, Name, NoMemory, PlacedRow, RawRow, RawRowList, StreamId,
    StreamNo, StreamPlan, StreamTable, StreamTableList, Tables,
};
use std::alloc::Global;

// A table that stands in another's place while that is changed. It takes no memory.
fn stand_in(alloc: Global) -> StreamTable {
    let id = StreamId {
        name: Name::from_string(String::new(alloc)),
        namespace: None,
    };
    new_table(alloc, id)
}

// Opens a stream in a load.
fn open_stream(
    alloc: Global,
    tables: &mut StreamTableList,
    plan: &StreamPlan,
) -> Result<(), NoMemory>
    ensures ok { OnOk result (tables.new ≡ opened_stream tables.old plan.now) }
    ensures err { OnErr result (tables.new ≡ tables.old) }
{
    match index_of(tables.as_slice(), &plan.id) {
        Some(index) => {
            let table = tables.replace(index, stand_in(alloc));
            tables.replace(index, change::open(alloc, table, plan));
            Ok(())
        }
        None => {
            let table = new_table(alloc, plan.id.copy(alloc)?);
            tables.push(change::open(alloc, table, plan))
        }
    }
}

// Opens all streams of a load. On want of memory some of them may be open.
fn open_streams(
    alloc: Global,
    tables: &mut StreamTableList,
    plan: &[StreamPlan],
) -> Result<(), NoMemory>
    ensures { OnOk result (tables.new ≡ fold opened_stream tables.old plan.now) }
{
    for stream in plan {
        open_stream(alloc, tables, stream)?;
    }
    Ok(())
}

// The number of rows after so many more, which is a place.
fn places_after(before: u64, count: usize) -> Result<u64, NoMemory>
    ensures sum { IfOk result (λ after. after ≡ before + count) }
    ensures place { IfOk result (λ after. after < 2 ^ 63) }
{
    match before.checked_add(count as u64) {
        Some(after) if after < 1 << 63 => Ok(after),
        _ => Err(NoMemory),
    }
}

// Copies of rows, with the places behind this one.
#[tactic(auto, using(crate::proofs::TableLemmas::placed_take))]
fn place_rows(alloc: Global, before: u64, rows: &[RawRow]) -> Result<Vec<PlacedRow>, NoMemory>
    requires { before + length rows.now < 2 ^ 63 }
    ensures { IfOk result (λ made. made.items ≡ placed_after before rows.now) }
{
    let mut made = Vec::with_capacity(alloc, rows.len())?;
    let mut place = before;
    for row in rows {
        place += 1;
        let row = row.copy(alloc)?;
        made.push(PlacedRow { place, row })?;
    }
    Ok(made)
}

// Puts placed rows behind those of a stream.
fn commit_rows(
    alloc: Global,
    tables: &mut StreamTableList,
    id: &StreamId,
    rows: Vec<PlacedRow>,
) -> Result<(), NoMemory>
    ensures ok { OnOk result (tables.new ≡ changed (committed_table rows.items) id.now tables.old) }
    ensures err { OnErr result (tables.new ≡ tables.old) }
{
    match index_of(tables.as_slice(), id) {
        Some(index) => {
            let mut table = tables.replace(index, stand_in(alloc));
            let added = change::add_rows(&mut table, rows);
            tables.replace(index, table);
            added
        }
        None => {
            let mut table = new_table(alloc, id.copy(alloc)?);
            change::add_rows(&mut table, rows)?;
            tables.push(table)
        }
    }
}

// Merges winners into the load's side of a stream.
fn merge_stream(
    alloc: Global,
    tables: &mut StreamTableList,
    plan: &StreamPlan,
    winners: RawRowList,
    mark: u64,
) -> Result<(), NoMemory>
    ensures ok { OnOk result (tables.new ≡ changed (merged_table plan.now winners mark) plan.now.id tables.old) }
    ensures err { OnErr result (tables.new ≡ tables.old) }
{
    match index_of(tables.as_slice(), &plan.id) {
        Some(index) => {
            let mut table = tables.replace(index, stand_in(alloc));
            let merged = change::merge_winners(alloc, &mut table, plan, winners, mark);
            tables.replace(index, table);
            merged
        }
        None => {
            let mut table = new_table(alloc, plan.id.copy(alloc)?);
            change::merge_winners(alloc, &mut table, plan, winners, mark)?;
            tables.push(table)
        }
    }
}

// Shows a stream.
fn show_stream(
    alloc: Global,
    tables: &mut StreamTableList,
    plan: &StreamPlan,
) -> Result<(), NoMemory>
    ensures ok { OnOk result (tables.new ≡ changed (shown_table plan.now) plan.now.id tables.old) }
    ensures err { OnErr result (tables.new ≡ tables.old) }
{
    match index_of(tables.as_slice(), &plan.id) {
        Some(index) => {
            let table = tables.replace(index, stand_in(alloc));
            tables.replace(index, change::show(alloc, table, plan));
            Ok(())
        }
        None => {
            let table = new_table(alloc, plan.id.copy(alloc)?);
            tables.push(change::show(alloc, table, plan))
        }
    }
}

/// Opens a load. On want of memory some of its streams may be open.
pub fn open_load(
    alloc: Global,
    tables: &mut Tables,
    load: u64,
    plan: &LoadPlan,
) -> Result<(), NoMemory>
    ensures { OnOk result (tables.new ≡ tables_opened load plan.now tables.old) }
{
    let kept = plan.copy(alloc)?;
    open_streams(alloc, &mut tables.streams, plan.as_slice())?;
    tables.load = load;
    tables.plan = kept;
    Ok(())
}

/// Commits rows of a stream: all of them, or none. It takes constant time beside the rows' own.
pub fn commit(
    alloc: Global,
    tables: &mut Tables,
    stream: StreamNo,
    rows: &RawRowList,
) -> Result<(), NoMemory>
    ensures ok { OnOk result (tables.new ≡ tables_committed (plan_at tables.old stream) rows.now tables.old) }
    ensures places { OnOk result (tables.old.places < 2 ^ 63 → tables.new.places < 2 ^ 63) }
    ensures err { OnErr result (tables.new ≡ tables.old) }
{
    if let Some(plan) = tables.plan.as_slice().get(stream as usize) {
        let places = places_after(tables.places, rows.len())?;
        let placed = place_rows(alloc, tables.places, rows.as_slice())?;
        commit_rows(alloc, &mut tables.streams, &plan.id, placed)?;
        tables.places = places;
    }
    Ok(())
}

/// Merges winners of a stream: all of them, or none. It takes logarithmic time in the number of winners for each.
pub fn merge(
    alloc: Global,
    tables: &mut Tables,
    stream: StreamNo,
    winners: RawRowList,
    mark: u64,
) -> Result<(), NoMemory>
    ensures ok { OnOk result (tables.new ≡ tables_merged (plan_at tables.old stream) winners mark tables.old) }
    ensures err { OnErr result (tables.new ≡ tables.old) }
{
    if let Some(plan) = tables.plan.as_slice().get(stream as usize) {
        merge_stream(alloc, &mut tables.streams, plan, winners, mark)?;
    }
    Ok(())
}

/// Shows a stream, or leaves all as it is.
pub fn show(alloc: Global, tables: &mut Tables, stream: StreamNo) -> Result<(), NoMemory>
    ensures ok { OnOk result (tables.new ≡ tables_shown (plan_at tables.old stream) stream tables.old) }
    ensures err { OnErr result (tables.new ≡ tables.old) }
{
    let index = stream as usize;
    if index < tables.plan.len() {
        let mut plan = tables.plan.at(index).copy(alloc)?;
        show_stream(alloc, &mut tables.streams, &plan)?;
        plan.hidden = false;
        tables.plan.replace(index, plan);
    }
    Ok(())
}

/// The tables after an event. On want of memory some streams of a load may be open.
pub fn apply(alloc: Global, tables: &mut Tables, event: &Event) -> Result<(), NoMemory>
    ensures { OnOk result (tables.new ≡ tables_after tables.old event.now) }
{
    match event {
        Event::Opened { load, plan, .. } => open_load(alloc, tables, *load, plan),
        Event::Committed { stream, rows } => commit(alloc, tables, *stream, rows),
        Event::Merged {
            stream,
            winners,
            mark,
        } => merge(alloc, tables, *stream, winners.copy(alloc)?, *mark),
        Event::Shown { stream, .. } => show(alloc, tables, *stream),
        _ => Ok(()),
    }
}

/// The tables of a store in which nothing happened. They take no memory.
pub fn empty_tables(alloc: Global) -> Tables
    ensures { result ≡ no_tables }
{
    Tables {
        load: 0,
        places: 0,
        plan: LoadPlan::new(alloc),
        streams: StreamTableList::new(alloc),
    }
}

/// The tables that these events make of the empty store.
pub fn tables_of(alloc: Global, events: &EventList) -> Result<Tables, NoMemory>
    ensures { IfOk result (λ tables. tables ≡ tables_of events.now) }
{
    let mut tables = empty_tables(alloc);
    for event in events.as_slice() {
        apply(alloc, &mut tables, event)?;
    }
    Ok(tables)
}
