// An open store, and the load that is open in it.
use crate::form::open_tables;
use crate::part::{Part, merge_part, open_part, put_rows, show_part};
use crate::rows::{integer_at, row_at};
use crate::schema::ROW_WIDTH;
use crate::statements::{Statements, make_statements};
use crate::stream_line::{find_stream, marks_of};
use crate::transaction::end_transaction;
use outside::{Fault, LoadPlan, MarksList, RawRow, RawRowList, Sequence, StreamIdList, Unmerged};
use sqlite_calls::{Database, Parameter, ResultSet};
use std::alloc::Global;

/// A load that was opened, with the marks of its sides in the order of its streams.
#[derive(Drop)]
pub struct OpenedLoad {
    pub load: u64,
    pub side_marks: Sequence<u64>,
}

/// A destination's tables in a database. Each call that changes them is one transaction; where it answers a fault, what
/// is known of the load's streams is as before.
#[derive(Drop)]
pub struct SqlTables<B: Database + Drop> {
    alloc: Global,
    base: B,
    statements: Statements,
    parts: Vec<Part>,
}

fn next_load<B: Database>(base: &mut B, statements: &Statements) -> Result<u64, Fault> {
    let last = base.query(&statements.streams.last_load, &[])?;
    if last.is_empty() {
        return Ok(1);
    }
    integer_at(&last, 0, 0)?.checked_add(1).ok_or(Fault::Failed)
}

fn open_parts<B: Database>(
    alloc: Global,
    base: &mut B,
    statements: &Statements,
    plan: &LoadPlan,
    moment: u64,
) -> Result<(u64, Vec<Part>), Fault> {
    let load = next_load(base, statements)?;
    let parameters = [Parameter::Integer(load), Parameter::Integer(moment)];
    base.execute(&statements.streams.add_load, &parameters)?;
    let mut parts = Vec::with_capacity(alloc, plan.len())?;
    for stream in plan.as_slice() {
        parts.push(open_part(base, statements, stream)?)?;
    }
    Ok((load, parts))
}

fn marks_of_parts(alloc: Global, parts: &[Part]) -> Result<Sequence<u64>, Fault> {
    let mut marks = Sequence::with_capacity(alloc, parts.len())?;
    for part in parts {
        marks.push(part.mark())?;
    }
    Ok(marks)
}

// The first rows of a result set, at most so many, with the place of the last of them.
fn page_of(alloc: Global, found: &ResultSet, mark: u64, most: u32) -> Result<Unmerged, Fault> {
    let count = found.len().min(most as usize);
    let mut rows = RawRowList::with_capacity(alloc, count)?;
    for at in 0..count {
        rows.push(row_at(alloc, found, at)?)?;
    }
    let mark = match count.checked_sub(1) {
        Some(last) => integer_at(found, last, ROW_WIDTH)?,
        None => mark,
    };
    Ok(Unmerged {
        rows,
        mark,
        more: found.len() > count,
    })
}

impl<B: Database + Drop> SqlTables<B> {
    /// The tables of a database, which are made where none of them stands. No load is open. A database that has some of
    /// them, or has them with other columns or keys, or with a row that is not of their form, is `Failed`, and stays as
    /// it was.
    pub fn over(alloc: Global, mut base: B) -> Result<Self, Fault> {
        open_tables(alloc, &mut base)?;
        let statements = make_statements(alloc, &mut base)?;
        Ok(SqlTables {
            alloc,
            base,
            statements,
            parts: Vec::new(alloc),
        })
    }

    fn part(&self, stream: usize) -> Result<Part, Fault> {
        match self.parts.get(stream) {
            Some(part) => Ok(*part),
            None => Err(Fault::Failed),
        }
    }

    fn set_part(&mut self, stream: usize, part: Part) {
        if let Some(place) = self.parts.get_mut(stream) {
            *place = part;
        }
    }

    /// The marks of these streams, in their order.
    pub fn marks(&mut self, alloc: Global, streams: &StreamIdList) -> Result<MarksList, Fault> {
        let mut marks = MarksList::with_capacity(alloc, streams.len())?;
        for id in streams.as_slice() {
            let line = find_stream(&mut self.base, &self.statements.streams, id)?;
            marks.push(marks_of(line))?;
        }
        Ok(marks)
    }

    /// Opens a load of these streams, one above the last, in place of that which was open.
    pub fn open_load(&mut self, plan: &LoadPlan, moment: u64) -> Result<OpenedLoad, Fault> {
        self.base.execute_batch("BEGIN")?;
        let opened = open_parts(self.alloc, &mut self.base, &self.statements, plan, moment);
        let with_marks = match opened {
            Ok((load, parts)) => match marks_of_parts(self.alloc, &parts) {
                Ok(marks) => Ok((load, parts, marks)),
                Err(fault) => Err(fault),
            },
            Err(fault) => Err(fault),
        };
        let (load, parts, side_marks) = end_transaction(&mut self.base, with_marks)?;
        self.parts = parts;
        Ok(OpenedLoad { load, side_marks })
    }

    /// Commits rows of a stream of the load.
    pub fn commit(&mut self, stream: usize, rows: &RawRowList) -> Result<(), Fault> {
        let part = self.part(stream)?;
        self.base.execute_batch("BEGIN")?;
        let lead = [Parameter::Integer(part.line.stream)];
        let insert = &self.statements.rows.commit;
        let put = put_rows(self.alloc, &mut self.base, insert, &lead, rows.as_slice());
        end_transaction(&mut self.base, put)
    }

    /// The next rows that the side of a stream has not merged, at most `most` of them.
    pub fn unmerged(&mut self, alloc: Global, stream: usize, most: u32) -> Result<Unmerged, Fault> {
        let part = self.part(stream)?;
        let Some((low, high)) = part.range() else {
            return Ok(Unmerged {
                rows: RawRowList::new(alloc),
                mark: part.mark(),
                more: false,
            });
        };
        let parameters = [
            Parameter::Integer(part.mark()),
            Parameter::Integer(part.line.stream),
            Parameter::Integer(low),
            Parameter::Integer(high),
            Parameter::Integer(u64::from(most).saturating_add(1)),
        ];
        let found = self.base.query(&self.statements.rows.page, &parameters)?;
        page_of(alloc, &found, part.mark(), most)
    }

    /// The winner of a key on the side of a stream.
    pub fn winner(
        &mut self,
        alloc: Global,
        stream: usize,
        key: &[u8],
    ) -> Result<Option<RawRow>, Fault> {
        let part = self.part(stream)?;
        let parameters = [
            Parameter::Integer(part.line.stream),
            Parameter::Integer(part.side()),
            Parameter::Blob(key),
        ];
        let found = self.base.query(&self.statements.rows.winner, &parameters)?;
        if found.is_empty() {
            return Ok(None);
        }
        Ok(Some(row_at(alloc, &found, 0)?))
    }

    /// Puts winners in the place of those of their keys, and sets the mark of the stream's side.
    pub fn merge(&mut self, stream: usize, winners: &RawRowList, mark: u64) -> Result<(), Fault> {
        let part = self.part(stream)?.merged(mark);
        self.base.execute_batch("BEGIN")?;
        let merged = merge_part(
            self.alloc,
            &mut self.base,
            &self.statements,
            &part,
            winners.as_slice(),
        );
        end_transaction(&mut self.base, merged)?;
        self.set_part(stream, part);
        Ok(())
    }

    /// Makes a stream's hidden side the shown one; a side that is the shown one already stays.
    pub fn show(&mut self, stream: usize) -> Result<(), Fault> {
        let before = self.part(stream)?;
        if !before.is_hidden {
            return Ok(());
        }
        let part = before.shown();
        self.base.execute_batch("BEGIN")?;
        let shown = show_part(&mut self.base, &self.statements, &part);
        end_transaction(&mut self.base, shown)?;
        self.set_part(stream, part);
        Ok(())
    }
}
