// The tables that a source reads.
use crate::rows::{integer_at, text_at};
use outside::{Fault, Name, NumberedRow, NumberedRowList};
use sqlite_calls::{Database, Parameter, ResultSet, Statement};
use std::alloc::Global;

const PAGE: &str =
    "SELECT id, body FROM source_rows WHERE tab = ?1 AND id > ?2 ORDER BY id LIMIT ?3";

// Null comes before all numbers.
const FIRST: &str = "SELECT id FROM source_rows WHERE tab = ?1 ORDER BY id LIMIT 1";

/// The tables of a source in a database: all stand in `source_rows`, each row behind the name of its table.
#[derive(Drop)]
pub struct SqlRows<B: Database + Drop> {
    base: B,
    page: Statement,
    first: Statement,
    // The table whose first row was looked at last. The rows of an open database do not change.
    checked: Option<Name>,
}

// Whether a row behind these has the id of the last of them.
fn repeats_last(found: &ResultSet, count: usize) -> bool {
    match count.checked_sub(1) {
        Some(last) => found.len() > count && found.integer(count, 0) == found.integer(last, 0),
        None => false,
    }
}

impl<B: Database + Drop> SqlRows<B> {
    /// The tables of a database. One without `source_rows`, or without one of its columns, is `Failed`.
    pub fn over(mut base: B) -> Result<Self, Fault> {
        let page = base.prepare(PAGE)?;
        let first = base.prepare(FIRST)?;
        Ok(SqlRows {
            base,
            page,
            first,
            checked: None,
        })
    }

    // Fails where a row of a table has an id that is null, or below 1.
    fn check_first(&mut self, alloc: Global, table: &str) -> Result<(), Fault> {
        if let Some(checked) = &self.checked {
            if checked.as_str() == table {
                return Ok(());
            }
        }
        let found = self
            .base
            .query(&self.first, &[Parameter::Text(table.as_bytes())])?;
        if !found.is_empty() && integer_at(&found, 0, 0)? == 0 {
            return Err(Fault::Failed);
        }
        self.checked = Some(Name::copy_of(alloc, table)?);
        Ok(())
    }

    /// The first rows of a table with ids above this one, at most `most` of them. A table of which a row has no whole
    /// number from 1 on as its id, as one that is null, 0 or negative, is `Failed`, and so is a page with a row whose
    /// body is no text, or whose id another has.
    pub fn page_after(
        &mut self,
        alloc: Global,
        table: &str,
        after: u64,
        most: u32,
    ) -> Result<NumberedRowList, Fault> {
        self.check_first(alloc, table)?;
        let parameters = [
            Parameter::Text(table.as_bytes()),
            Parameter::Integer(after),
            Parameter::Integer(u64::from(most).saturating_add(1)),
        ];
        let found = self.base.query(&self.page, &parameters)?;
        let count = found.len().min(most as usize);
        if repeats_last(&found, count) {
            return Err(Fault::Failed);
        }
        let mut rows = NumberedRowList::with_capacity(alloc, count)?;
        for at in 0..count {
            rows.push(NumberedRow {
                id: integer_at(&found, at, 0)?,
                body: text_at(alloc, &found, at, 1)?,
            })?;
        }
        Ok(rows)
    }
}
