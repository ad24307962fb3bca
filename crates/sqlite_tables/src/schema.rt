// The stored layout, and the texts of statements on it.
use outside::Fault;
use std::alloc::Global;

/// A table: its name, and its columns and keys as they are written behind that where it is made.
pub type Layout = (&'static str, &'static str);

/// The tables. A side is 0 for the shown one and 1 for the hidden one; a namespace that is absent is the empty text with
/// `has_ns` 0; a mark is a `pos`, and 0 where nothing was merged.
pub const TABLES: [Layout; 4] = [
    (
        "loads",
        "(load INTEGER PRIMARY KEY, moment INTEGER NOT NULL)",
    ),
    (
        "streams",
        "(stream INTEGER PRIMARY KEY, name TEXT NOT NULL, has_ns INTEGER NOT NULL, namespace TEXT NOT NULL, floor INTEGER NOT NULL, top INTEGER, greatest INTEGER, shown_mark INTEGER NOT NULL, hidden_mark INTEGER NOT NULL, hidden_minimum INTEGER, hidden_generation INTEGER, UNIQUE (name, has_ns, namespace))",
    ),
    (
        "raw_rows",
        "(pos INTEGER PRIMARY KEY AUTOINCREMENT, stream INTEGER NOT NULL, load INTEGER NOT NULL, seq INTEGER NOT NULL, generation INTEGER NOT NULL, extracted_at INTEGER NOT NULL, loaded_at INTEGER NOT NULL, raw_id TEXT NOT NULL, \"key\" BLOB NOT NULL, cursor BLOB NOT NULL, body TEXT NOT NULL, columns TEXT NOT NULL, meta TEXT NOT NULL, UNIQUE (load, seq))",
    ),
    (
        "final_rows",
        "(stream INTEGER NOT NULL, side INTEGER NOT NULL, load INTEGER NOT NULL, seq INTEGER NOT NULL, generation INTEGER NOT NULL, extracted_at INTEGER NOT NULL, loaded_at INTEGER NOT NULL, raw_id TEXT NOT NULL, \"key\" BLOB NOT NULL, cursor BLOB NOT NULL, body TEXT NOT NULL, columns TEXT NOT NULL, meta TEXT NOT NULL, PRIMARY KEY (stream, side, \"key\"))",
    ),
];

/// The columns of a row, in the order in which rows are bound and read.
pub const ROW_COLUMNS: &str =
    "load, seq, generation, extracted_at, loaded_at, raw_id, \"key\", cursor, body, columns, meta";

/// How many columns a row has.
pub const ROW_WIDTH: usize = 11;

/// How many rows one statement inserts where so many are left: fewer statements take less time, up to some tens of rows.
pub const GROUP: usize = 20;

/// An insert of so many rows of `width` columns, behind the words that name the table and its columns.
pub fn insert_text(alloc: Global, head: &str, width: usize, rows: usize) -> Result<String, Fault> {
    let mut text = String::from_str(alloc, head)?;
    for row in 0..rows {
        text.push_str(if row == 0 { " VALUES (?" } else { ", (?" })?;
        for _ in 1..width {
            text.push_str(", ?")?;
        }
        text.push_str(")")?;
    }
    Ok(text)
}
