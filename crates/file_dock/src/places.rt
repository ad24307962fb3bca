// The places of rows in a store.
ghost use Rattle.std.specs.Prelude.{◌↔◌, IsTrue};
ghost use Rattle.std.specs.List.{AllByRecursion};
ghost use Rattle.outside.specs.Places.{RowsRise, TablesRise};
ghost use Rattle.file_dock.specs.Places.{RiseFrom};

use outside::{PlacedRow, StreamTable, Tables};

// Whether the places of these rows rise, from above 0 up to the last that was given.
fn rise_from(rows: &[PlacedRow], places: u64) -> bool
    ensures { IsTrue result ↔ RiseFrom places 0 rows.now }
{
    let mut before = 0;
    for placed in rows {
        if placed.place <= before || placed.place > places {
            return false;
        }
        before = placed.place;
    }
    true
}

// Whether the places of a table's rows rise, up to the last that was given.
#[tactic(auto, using(crate::proofs::PlaceLemmas::rows_rise))]
fn rows_rise(table: &StreamTable, places: u64) -> bool
    ensures { IsTrue result → RowsRise places table.now }
{
    rise_from(table.rows.as_slice(), places)
}

fn all_rise(tables: &[StreamTable], places: u64) -> bool
    ensures { IsTrue result → AllByRecursion (RowsRise places) tables.now }
{
    for table in tables {
        if !rows_rise(table, places) {
            return false;
        }
    }
    true
}

/// Whether the places of each table's rows rise.
pub fn do_rise(tables: &Tables) -> bool
    ensures { IsTrue result → TablesRise tables.now }
{
    all_rise(tables.streams.as_slice(), tables.places)
}
