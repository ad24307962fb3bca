// The statements of an open store, compiled once.
use crate::schema::{GROUP, ROW_COLUMNS, ROW_WIDTH, insert_text};
use outside::Fault;
use sqlite_calls::{Database, Statement};
use std::alloc::Global;

/// Statements on loads and streams.
#[derive(Drop)]
pub struct StreamStatements {
    pub last_load: Statement,
    pub add_load: Statement,
    pub find: Statement,
    pub add: Statement,
    pub set: Statement,
}

/// Statements that put rows, as many as a group has or one.
#[derive(Drop)]
pub struct Insert {
    pub group: Statement,
    pub one: Statement,
}

/// Statements on rows.
#[derive(Drop)]
pub struct RowStatements {
    pub commit: Insert,
    pub merge: Insert,
    pub page: Statement,
    pub winner: Statement,
    pub drop_below: Statement,
    pub drop_side: Statement,
    pub show_side: Statement,
}

/// All of them.
#[derive(Drop)]
pub struct Statements {
    pub streams: StreamStatements,
    pub rows: RowStatements,
}

fn make_insert<B: Database>(
    alloc: Global,
    base: &mut B,
    head: &str,
    width: usize,
) -> Result<Insert, Fault> {
    let group = insert_text(alloc, head, width, GROUP)?;
    let one = insert_text(alloc, head, width, 1)?;
    Ok(Insert {
        group: base.prepare(group.as_str())?,
        one: base.prepare(one.as_str())?,
    })
}

fn stream_statements<B: Database>(base: &mut B) -> Result<StreamStatements, Fault> {
    Ok(StreamStatements {
        last_load: base.prepare("SELECT load FROM loads ORDER BY load DESC LIMIT 1")?,
        add_load: base.prepare("INSERT INTO loads (load, moment) VALUES (?1, ?2)")?,
        find: base.prepare(
            "SELECT stream, floor, top, greatest, shown_mark, hidden_mark, hidden_minimum, hidden_generation FROM streams WHERE name = ?1 AND has_ns = ?2 AND namespace = ?3",
        )?,
        add: base.prepare(
            "INSERT INTO streams (name, has_ns, namespace, floor, shown_mark, hidden_mark) VALUES (?1, ?2, ?3, 0, 0, 0)",
        )?,
        set: base.prepare(
            "UPDATE streams SET floor = ?2, top = ?3, greatest = ?4, shown_mark = ?5, hidden_mark = ?6, hidden_minimum = ?7, hidden_generation = ?8 WHERE stream = ?1",
        )?,
    })
}

fn row_statements<B: Database>(alloc: Global, base: &mut B) -> Result<RowStatements, Fault> {
    let commit = format!(in alloc; "INSERT INTO raw_rows (stream, {ROW_COLUMNS})")?;
    let merge = format!(in alloc;
        "INSERT OR REPLACE INTO final_rows (stream, side, {ROW_COLUMNS})"
    )?;
    let page = format!(in alloc;
        "SELECT {ROW_COLUMNS}, pos FROM raw_rows WHERE pos > ?1 AND stream = ?2 AND generation BETWEEN ?3 AND ?4 AND length(\"key\") > 0 ORDER BY pos LIMIT ?5"
    )?;
    let winner = format!(in alloc;
        "SELECT {ROW_COLUMNS} FROM final_rows WHERE stream = ?1 AND side = ?2 AND \"key\" = ?3"
    )?;
    Ok(RowStatements {
        commit: make_insert(alloc, base, commit.as_str(), ROW_WIDTH + 1)?,
        merge: make_insert(alloc, base, merge.as_str(), ROW_WIDTH + 2)?,
        page: base.prepare(page.as_str())?,
        winner: base.prepare(winner.as_str())?,
        drop_below: base.prepare("DELETE FROM raw_rows WHERE stream = ?1 AND generation < ?2")?,
        drop_side: base.prepare("DELETE FROM final_rows WHERE stream = ?1 AND side = ?2")?,
        show_side: base.prepare("UPDATE final_rows SET side = 0 WHERE stream = ?1 AND side = 1")?,
    })
}

/// Compiles all statements.
pub fn make_statements<B: Database>(alloc: Global, base: &mut B) -> Result<Statements, Fault> {
    Ok(Statements {
        streams: stream_statements(base)?,
        rows: row_statements(alloc, base)?,
    })
}
