// A source of tables over a desk and rows in memory.
ghost use Rattle.std.specs.Prelude.{IsTrue, ◌↔◌};
ghost use Rattle.source_tests.specs.Rows.{RiseFrom};

use basics::{Bytes, FailList, Name, NoMemory};
use outside::NumberedRow;
use outside_mem::{MemDesk, NamedText, NamedTextList};
use row_store::{MemRows, TableRow, TableRowList};
use std::alloc::{AllocError, Global};
use table_run::run_source;

/// A text with its name.
pub type Text = (&'static str, &'static str);

/// A row with its table and its id.
pub type Row = (&'static str, u64, &'static str);

// The texts of a desk.
fn texts_of(alloc: Global, texts: &[Text]) -> Result<NamedTextList, NoMemory> {
    let mut list = NamedTextList::new(alloc);
    for (name, text) in texts {
        list.push(NamedText {
            name: Name::copy_of(alloc, name)?,
            text: Bytes::copy_of(alloc, text.as_bytes())?,
        })?;
    }
    Ok(list)
}

// The rows of a store.
fn rows_of(alloc: Global, rows: &[Row]) -> Result<TableRowList, NoMemory> {
    let mut list = TableRowList::new(alloc);
    for (table, id, body) in rows {
        list.push(TableRow {
            table: Name::copy_of(alloc, table)?,
            row: NumberedRow {
                id: *id,
                body: Bytes::copy_of(alloc, body.as_bytes())?,
            },
        })?;
    }
    Ok(list)
}

// Whether ids rise from above this one, and are below 2^63.
fn do_rise(entries: &[TableRow], after: u64) -> bool
    ensures { IsTrue result ↔ RiseFrom entries.now after }
{
    let mut before = after;
    for entry in entries {
        if entry.row.id <= before || entry.row.id >= 1 << 63 {
            return false;
        }
        before = entry.row.id;
    }
    true
}

// The numbers of calls that are to fail.
fn fails_of(alloc: Global, fails: &[u64]) -> Result<FailList, NoMemory> {
    let mut list = FailList::new(alloc);
    for call in fails {
        list.push(*call)?;
    }
    Ok(list)
}

// Copies of these words.
fn words_of(alloc: Global, texts: &[&str]) -> Result<Vec<String>, AllocError> {
    let mut words = Vec::new(alloc);
    for text in texts {
        words.push(String::from_str(alloc, text)?)?;
    }
    Ok(words)
}

// The lines that a desk said, each with its newline.
fn lines_of(alloc: Global, desk: &MemDesk) -> Result<Bytes, NoMemory> {
    let mut all = Bytes::new(alloc);
    for line in desk.said().as_slice() {
        all.extend(line.as_slice())?;
        all.push(b'\n')?;
    }
    Ok(all)
}

/// What a run over these texts and rows says at the moment 5, each line with its newline, and behind it the text of its status.
/// The calls of the desk and of the store with these numbers fail. None where the ids of the rows do not rise.
#[tactic(auto, using(crate::proofs::RowLemmas::are_tables))]
pub fn run(
    alloc: Global,
    texts: &[Text],
    rows: &[Row],
    words: &[&str],
    desk_fails: &[u64],
    row_fails: &[u64],
) -> Result<Option<Bytes>, NoMemory> {
    let rows = rows_of(alloc, rows)?;
    if !do_rise(rows.as_slice(), 0) {
        return Ok(None);
    }
    let mut desk = MemDesk::new(alloc, texts_of(alloc, texts)?, fails_of(alloc, desk_fails)?);
    let store = MemRows::new(alloc, rows, fails_of(alloc, row_fails)?);
    let words = words_of(alloc, words)?;
    let end = run_source(alloc, &mut desk, store, 5, &words);
    let mut all = lines_of(alloc, &desk)?;
    all.extend(end.status.text(alloc)?.as_slice())?;
    Ok(Some(all))
}
