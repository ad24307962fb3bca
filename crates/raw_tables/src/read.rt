// What is read of tables.
ghost use Rattle.std.specs.Prelude.{◌≡◌, ◌<◌, ◌≤◌, map, filter, take, drop, length, IfOk};
ghost use Rattle.std.specs.List.{AllByRecursion};
ghost use Rattle.std.specs.Option.{option_copied};
ghost use Rattle.outside.specs.Tables.{marks_in, page_of, page_in, winner_of, side_of, is_unmerged, is_in_range, is_in_shown, is_from_to, shown_event, shown_table, shown_marks};
ghost use Rattle.outside.specs.Places.{IsUpTo, IsBehind, PlacesRise, TablesRise};
ghost use Rattle.outside.specs.declared.event.StreamPlan.{StreamPlan};
ghost use Rattle.outside.specs.declared.load.Marks.{Marks};
ghost use Rattle.outside.specs.declared.table.StreamTable.{StreamTable};

use crate::change::FIRST_MARKS;
use crate::find::index_of;
use generation_rules::floor;
use outside::{
    Copies, Event, Marks, MarksList, NoMemory, PlacedRow, RawRow, RawRowList, StreamId, StreamNo,
    StreamPlan, StreamTable, TableSide, Tables, Unmerged,
};
use std::alloc::Global;

fn marks_of(tables: &Tables, id: &StreamId) -> Marks
    ensures { result ≡ marks_in tables.now id.now }
{
    match index_of(tables.streams.as_slice(), id) {
        Some(index) => tables.streams.at(index).marks,
        None => FIRST_MARKS,
    }
}

/// The marks of these streams, in their order.
pub fn read_marks(alloc: Global, tables: &Tables, ids: &[StreamId]) -> Result<MarksList, NoMemory>
    ensures { IfOk result (λ made. made ≡ map (marks_in tables.now) ids.now) }
{
    let mut made = MarksList::with_capacity(alloc, ids.len())?;
    for id in ids {
        made.push(marks_of(tables, id))?;
    }
    Ok(made)
}

/// Whether a generation lies between floor and top.
pub fn is_between(marks: &Marks, generation: u64) -> bool
    ensures { result ≡ is_in_shown marks.now.floor marks.now.top generation }
{
    match marks.top {
        None => false,
        Some(top) => marks.floor <= generation && generation <= top,
    }
}

fn is_in(plan: &StreamPlan, marks: &Marks, generation: u64) -> bool
    ensures { result ≡ is_in_range plan.now marks.now generation }
{
    if plan.hidden {
        plan.minimum <= generation && generation <= plan.generation
    } else {
        is_between(marks, generation)
    }
}

fn is_next(plan: &StreamPlan, marks: &Marks, mark: u64, placed: &PlacedRow) -> bool
    ensures { result ≡ is_unmerged plan.now marks.now mark placed.now }
{
    mark < placed.place
        && (is_in(plan, marks, placed.row.generation) && !placed.row.key.as_slice().is_empty())
}

fn side<'a>(plan: &StreamPlan, table: &'a StreamTable) -> &'a TableSide
    ensures { result.now ≡ side_of plan.now table.now }
{
    if plan.hidden {
        &table.hidden
    } else {
        &table.shown
    }
}

// How many rows stand up to a mark.
fn count_up_to(rows: &[PlacedRow], mark: u64) -> usize
    requires { PlacesRise rows.now }
    ensures within { result ≤ length rows.now }
    ensures up_to { AllByRecursion (IsUpTo mark) (take result rows.now) }
    ensures behind { AllByRecursion (IsBehind mark) (drop result rows.now) }
{
    rows.partition_point(|placed| placed.place <= mark)
}

// The rows behind a mark.
fn rows_behind(rows: &[PlacedRow], mark: u64) -> &[PlacedRow]
    requires { PlacesRise rows.now }
    ensures behind { AllByRecursion (IsBehind mark) result.now }
    ensures unmerged { (plan : StreamPlan) (marks : Marks) → filter (is_unmerged plan marks mark) result.now ≡ filter (is_unmerged plan marks mark) rows.now }
{
    &rows[count_up_to(rows, mark)..]
}

/// The next rows of a table that the load's side has not merged, at most so many. Only rows behind the side's mark are
/// looked at, which are found in logarithmic time.
pub fn page(
    alloc: Global,
    plan: &StreamPlan,
    table: &StreamTable,
    most: usize,
) -> Result<Unmerged, NoMemory>
    requires { PlacesRise table.now.rows }
    ensures { IfOk result (λ page. page ≡ page_in plan.now table.now most) }
{
    let from = side(plan, table).mark;
    let mut rows = RawRowList::new(alloc);
    let mut mark = from;
    for placed in rows_behind(table.rows.as_slice(), from) {
        if is_next(plan, &table.marks, from, placed) {
            if rows.len() >= most {
                return Ok(Unmerged {
                    rows,
                    mark,
                    more: true,
                });
            }
            rows.push(placed.row.copy(alloc)?)?;
            mark = placed.place;
        }
    }
    Ok(Unmerged {
        rows,
        mark,
        more: false,
    })
}

/// The next rows of a stream of the load that its side has not merged, at most so many.
pub fn read_page(
    alloc: Global,
    tables: &Tables,
    stream: StreamNo,
    most: usize,
) -> Result<Unmerged, NoMemory>
    requires { TablesRise tables.now }
    ensures { IfOk result (λ page. page ≡ page_of tables.now stream most) }
{
    if let Some(plan) = tables.plan.as_slice().get(stream as usize) {
        if let Some(index) = index_of(tables.streams.as_slice(), &plan.id) {
            return page(alloc, plan, tables.streams.at(index), most);
        }
    }
    Ok(Unmerged {
        rows: RawRowList::new(alloc),
        mark: 0,
        more: false,
    })
}

/// The winner of a key on the side that the load uses of a stream. It is found in logarithmic time.
pub fn read_winner(
    alloc: Global,
    tables: &Tables,
    stream: StreamNo,
    key: &[u8],
) -> Result<Option<RawRow>, NoMemory>
    ensures { IfOk result (λ winner. winner ≡ winner_of tables.now stream key.now) }
{
    if let Some(plan) = tables.plan.as_slice().get(stream as usize) {
        if let Some(index) = index_of(tables.streams.as_slice(), &plan.id) {
            if let Some(winner) = side(plan, tables.streams.at(index)).winners.get(key) {
                return Ok(Some(winner.copy(alloc)?));
            }
        }
    }
    Ok(None)
}

fn marks_shown(plan: &StreamPlan, marks: Marks) -> Marks
    ensures { (table : StreamTable) → table.marks ≡ marks → (shown_table plan.now table).marks ≡ result }
{
    if !plan.hidden {
        return marks;
    }
    Marks {
        floor: floor(marks.floor, plan.minimum),
        top: Some(plan.generation),
        greatest: marks.greatest,
    }
}

/// The event that showing a stream of the load adds.
pub fn showing(tables: &Tables, stream: StreamNo) -> Event
    ensures { result ≡ shown_event tables.now stream }
{
    let marks = match tables.plan.as_slice().get(stream as usize) {
        Some(plan) => marks_shown(plan, marks_of(tables, &plan.id)),
        None => FIRST_MARKS,
    };
    Event::Shown {
        stream,
        floor: marks.floor,
        top: marks.top.unwrap_or(0),
    }
}
