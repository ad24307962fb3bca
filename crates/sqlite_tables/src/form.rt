// Whether a database is a destination's store.
use crate::rows::integer_at;
use crate::schema::{Layout, TABLES};
use crate::transaction::end_transaction;
use outside::Fault;
use sqlite_calls::{Database, Parameter, ResultSet};
use std::alloc::Global;

const LISTED: &str = "SELECT name, sql FROM sqlite_schema WHERE type = 'table'";

const LAST_LOAD: &str = "SELECT load FROM loads ORDER BY load DESC LIMIT 1";

const LAST_STREAM: &str = "SELECT stream FROM streams ORDER BY stream DESC LIMIT 1";

const LAST_PLACE: &str = "SELECT seq FROM sqlite_sequence WHERE name = 'raw_rows'";

// A load that is not of the form.
const OTHER_LOAD: &str =
    "SELECT 1 FROM loads WHERE load < 1 OR typeof(moment) <> 'integer' OR moment < 0 LIMIT 1";

// A stream that is not of the form, where this is the last place that was given.
const OTHER_STREAM: &str =
    "SELECT 1 FROM streams WHERE stream < 1 OR typeof(name) <> 'text' OR typeof(namespace) <> 'text' OR typeof(has_ns) <> 'integer' OR has_ns < 0 OR has_ns > 1 OR (has_ns = 0 AND namespace <> '') OR typeof(floor) <> 'integer' OR floor < 0 OR (top IS NOT NULL AND (typeof(top) <> 'integer' OR top < 0)) OR (greatest IS NOT NULL AND (typeof(greatest) <> 'integer' OR greatest < 0)) OR typeof(shown_mark) <> 'integer' OR shown_mark < 0 OR shown_mark > ?1 OR typeof(hidden_mark) <> 'integer' OR hidden_mark < 0 OR hidden_mark > ?1 OR (hidden_minimum IS NOT NULL AND (typeof(hidden_minimum) <> 'integer' OR hidden_minimum < 0)) OR (hidden_generation IS NOT NULL AND (typeof(hidden_generation) <> 'integer' OR hidden_generation < 0)) OR (hidden_minimum IS NULL AND hidden_generation IS NOT NULL) OR (hidden_minimum IS NOT NULL AND hidden_generation IS NULL) LIMIT 1";

// What is wrong with the columns of a row, where these are the last stream and the last load.
const OTHER_COLUMNS: &str =
    "typeof(stream) <> 'integer' OR stream < 1 OR stream > ?1 OR typeof(load) <> 'integer' OR load < 1 OR load > ?2 OR typeof(seq) <> 'integer' OR seq < 0 OR typeof(generation) <> 'integer' OR generation < 0 OR typeof(extracted_at) <> 'integer' OR extracted_at < 0 OR typeof(loaded_at) <> 'integer' OR loaded_at < 0 OR typeof(raw_id) <> 'text' OR typeof(\"key\") <> 'blob' OR typeof(cursor) <> 'blob' OR typeof(body) <> 'text' OR typeof(columns) <> 'text' OR typeof(meta) <> 'text'";

fn query<B: Database>(
    base: &mut B,
    sql: &str,
    parameters: &[Parameter<'_>],
) -> Result<ResultSet, Fault> {
    let statement = base.prepare(sql)?;
    base.query(&statement, parameters)
}

// The number that a query gives, 0 where it gives no row.
fn last_of<B: Database>(base: &mut B, sql: &str) -> Result<u64, Fault> {
    let found = query(base, sql, &[])?;
    if found.is_empty() {
        return Ok(0);
    }
    integer_at(&found, 0, 0)
}

// Fails where a query gives a row.
fn has_none<B: Database>(
    base: &mut B,
    sql: &str,
    parameters: &[Parameter<'_>],
) -> Result<(), Fault> {
    if query(base, sql, parameters)?.is_empty() {
        return Ok(());
    }
    Err(Fault::Failed)
}

// Whether a table was made with these columns and keys.
fn has_columns(found: &ResultSet, row: usize, columns: &str) -> bool {
    let Some(sql) = found.text(row, 1) else {
        return false;
    };
    match sql.iter().position(|byte| *byte == b'(') {
        Some(at) => &sql[at..] == columns.as_bytes(),
        None => false,
    }
}

// Whether a table of that name is listed; one with other columns or keys is `Failed`.
fn is_listed(found: &ResultSet, layout: &Layout) -> Result<bool, Fault> {
    for row in 0..found.len() {
        let Some(name) = found.text(row, 0) else {
            return Err(Fault::Failed);
        };
        if name.eq_ignore_ascii_case(layout.0.as_bytes()) {
            return if has_columns(found, row, layout.1) {
                Ok(true)
            } else {
                Err(Fault::Failed)
            };
        }
    }
    Ok(false)
}

// How many of the tables are there.
fn count_listed<B: Database>(base: &mut B) -> Result<usize, Fault> {
    let found = query(base, LISTED, &[])?;
    let mut count = 0usize;
    for layout in &TABLES {
        if is_listed(&found, layout)? {
            count = count.saturating_add(1);
        }
    }
    Ok(count)
}

fn make_each<B: Database>(alloc: Global, base: &mut B) -> Result<(), Fault> {
    for (name, columns) in &TABLES {
        let sql = format!(in alloc; "CREATE TABLE {name} {columns}")?;
        base.execute_batch(sql.as_str())?;
    }
    Ok(())
}

fn make_tables<B: Database>(alloc: Global, base: &mut B) -> Result<(), Fault> {
    base.execute_batch("BEGIN")?;
    let made = make_each(alloc, base);
    end_transaction(base, made)
}

fn check_rows<B: Database>(alloc: Global, base: &mut B) -> Result<(), Fault> {
    let place = last_of(base, LAST_PLACE)?;
    has_none(base, OTHER_LOAD, &[])?;
    has_none(base, OTHER_STREAM, &[Parameter::Integer(place)])?;
    let last = [
        Parameter::Integer(last_of(base, LAST_STREAM)?),
        Parameter::Integer(last_of(base, LAST_LOAD)?),
    ];
    let rows = format!(in alloc;
        "SELECT 1 FROM raw_rows WHERE pos < 1 OR {OTHER_COLUMNS} LIMIT 1"
    )?;
    has_none(base, rows.as_str(), &last)?;
    let winners = format!(in alloc;
        "SELECT 1 FROM final_rows WHERE typeof(side) <> 'integer' OR side < 0 OR side > 1 OR length(\"key\") = 0 OR {OTHER_COLUMNS} LIMIT 1"
    )?;
    has_none(base, winners.as_str(), &last)
}

/// Makes the tables where none of them stands. Where some stand, all have to, with these columns and keys, and with rows
/// of their form: else `Failed`, and nothing is changed.
pub fn open_tables<B: Database>(alloc: Global, base: &mut B) -> Result<(), Fault> {
    match count_listed(base)? {
        0 => make_tables(alloc, base),
        count if count == TABLES.len() => check_rows(alloc, base),
        _ => Err(Fault::Failed),
    }
}
