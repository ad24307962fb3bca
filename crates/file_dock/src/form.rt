// Whether a text is that of a store.
ghost use Rattle.std.specs.Prelude.{IfOk};
ghost use Rattle.outside.specs.Places.{TablesRise};

use crate::places::do_rise;
use crate::read::{Stored, store_of};
use crate::write::text_of;
use outside::{Fault, RawRow, StreamTable, Tables};
use std::alloc::Global;

// Whether a row is of one of so many loads.
fn is_of_loads(row: &RawRow, loads: u64) -> bool {
    row.load > 0 && row.load <= loads
}

// Whether all rows of a table are of so many loads.
fn are_of_loads(table: &StreamTable, loads: u64) -> bool {
    table
        .rows
        .as_slice()
        .iter()
        .all(|placed| is_of_loads(&placed.row, loads))
}

fn all_of_loads(tables: &Tables) -> bool {
    let loads = tables.load;
    for table in tables.streams.as_slice() {
        if !are_of_loads(table, loads) {
            return false;
        }
    }
    true
}

fn has_id_of(tables: &[StreamTable], table: &StreamTable) -> bool {
    for other in tables {
        if other.id == table.id {
            return true;
        }
    }
    false
}

// Whether no two streams have one id.
fn have_own_ids(tables: &[StreamTable]) -> bool {
    for at in 0..tables.len() {
        if has_id_of(&tables[..at], &tables[at]) {
            return false;
        }
    }
    true
}

fn push_numbers(numbers: &mut Vec<(u64, u64)>, table: &StreamTable) -> Result<(), Fault> {
    for placed in table.rows.as_slice() {
        numbers.push((placed.row.load, placed.row.seq))?;
    }
    Ok(())
}

// Whether no two rows have one number in one load.
fn have_own_numbers(alloc: Global, tables: &Tables) -> Result<bool, Fault> {
    let mut numbers = Vec::new(alloc);
    for table in tables.streams.as_slice() {
        push_numbers(&mut numbers, table)?;
    }
    numbers.sort()?;
    for at in 1..numbers.len() {
        if numbers[at] == numbers[at - 1] {
            return Ok(false);
        }
    }
    Ok(true)
}

/// The store of a text, of which no load is open. A text is that of a store exactly where it is what would be written of
/// that, the places of its rows rise, each row is of one of its loads, and no two rows have one number in one load, and no
/// two streams one id.
pub fn well_formed(alloc: Global, text: &[u8]) -> Result<Stored, Fault>
    ensures { IfOk result (λ store. TablesRise store.tables) }
{
    let store = store_of(alloc, text)?;
    let written = text_of(alloc, &store.moments, &store.tables)?;
    let own_numbers = have_own_numbers(alloc, &store.tables)?;
    let is_form = written.as_slice() == text
        && store.tables.places < 1 << 63
        && all_of_loads(&store.tables)
        && have_own_ids(store.tables.streams.as_slice())
        && own_numbers;
    if is_form && do_rise(&store.tables) {
        Ok(store)
    } else {
        Err(Fault::Failed)
    }
}
