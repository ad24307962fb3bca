// Tables of rows in a file, as a source reads them.
use crate::files::remove;
use outside::{Bytes, Fault, RowStore};
use sqlite_calls::{Database, Opener};
use sqlite_dock::SqliteRows;
use sqlite_file::FileOpener;
use std::alloc::Global;
use std::fs::File;
use std::test::Fail;

const MADE: &str =
    "CREATE TABLE source_rows (tab TEXT, id INTEGER, body TEXT, PRIMARY KEY (tab, id));
INSERT INTO source_rows (tab, id, body) VALUES ('b', 1, '{\"b\":1}'), ('a', 9, '{\"a\":9}'), ('a', 1, '{\"a\":1}'), ('a', 4, '{\"a\":\"ë\"}'), ('c', -3, '{}'), ('c', 3, '{}'), ('d', 2, NULL), ('e', NULL, '{}'), ('e', 5, '{}'), ('f', 0, '{}'), ('f', 3, '{}');";

/// Runs statements on a database, which is made where it is missing.
pub fn make_with<O: Opener>(opener: &mut O, name: &str, sql: &str) -> Result<(), Fault> {
    opener.open(name)?.execute_batch(sql)
}

// The ids and bodies of a page, or why there is none.
fn tell_page<R: RowStore>(
    alloc: Global,
    store: &mut R,
    table: &str,
    after: u64,
    most: u32,
) -> Result<Bytes, Fault> {
    let mut told = Bytes::new(alloc);
    if most == 0 {
        return Ok(told);
    }
    match store.page_after(alloc, table, after, most) {
        Ok(page) => {
            for row in page.as_slice() {
                let id = format!(in alloc; "{} ", row.id)?;
                told.extend(id.as_bytes())?;
                told.extend(row.body.as_slice())?;
                told.extend(b";")?;
            }
        }
        Err(Fault::Failed) => told.extend(b"failed")?,
        Err(Fault::NoMemory) => return Err(Fault::NoMemory),
    }
    Ok(told)
}

const PAGES: [(&str, u64, u32, &str); 12] = [
    ("a", 0, 10, "1 {\"a\":1};4 {\"a\":\"ë\"};9 {\"a\":9};"),
    ("a", 0, 2, "1 {\"a\":1};4 {\"a\":\"ë\"};"),
    ("a", 4, 2, "9 {\"a\":9};"),
    ("a", 9, 2, ""),
    ("b", 0, 2, "1 {\"b\":1};"),
    ("c", 0, 2, "failed"),
    ("c", 1, 2, "failed"),
    ("d", 0, 2, "failed"),
    ("e", 0, 2, "failed"),
    ("e", 4, 2, "failed"),
    ("f", 1, 2, "failed"),
    ("stranger", 0, 2, ""),
];

// How many of them fail.
const FAILING: usize = 6;

// How many of the pages are those of the table.
fn right_pages<R: RowStore>(alloc: Global, store: &mut R) -> Result<usize, Fault> {
    let mut right = 0usize;
    for (table, after, most, wanted) in &PAGES {
        let told = tell_page(alloc, store, table, *after, *most)?;
        if told.as_slice() == wanted.as_bytes() {
            right = right.saturating_add(1);
        }
    }
    Ok(right)
}

// Opens a database: whether that fails, and which pages are right then.
fn read_rows(rt: &HostRuntime, name: &str) -> Result<(bool, usize), Fault> {
    let mut store = SqliteRows::new(FileOpener::new(rt));
    let failed = store.open_rows(name) == Err(Fault::Failed);
    let right = right_pages(rt.alloc(), &mut store)?;
    Ok((failed, right))
}

#[test]
fn rows_come_in_pages_of_their_table(rt: HostRuntime) -> Result<(), Fail> {
    remove(&rt, "keeper_rows.db")?;
    make_with(&mut FileOpener::new(&rt), "keeper_rows.db", MADE)?;
    assert_eq!(rt; read_rows(&rt, "keeper_rows.db")?, (false, PAGES.len()));
    remove(&rt, "keeper_rows.db")?;
    Ok(())
}

#[test]
fn a_database_that_is_missing_or_has_no_rows_is_no_source(rt: HostRuntime) -> Result<(), Fail> {
    remove(&rt, "keeper_none.db")?;
    assert_eq!(rt; read_rows(&rt, "keeper_none.db")?, (true, FAILING));
    assert!(rt; File::open(&rt, "keeper_none.db").is_err());
    make_with(
        &mut FileOpener::new(&rt),
        "keeper_none.db",
        "CREATE TABLE other (x INTEGER);",
    )?;
    assert_eq!(rt; read_rows(&rt, "keeper_none.db")?, (true, FAILING));
    remove(&rt, "keeper_none.db")?;
    Ok(())
}
