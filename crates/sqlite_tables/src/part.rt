// A stream of the load that is open.
use crate::rows::push_row;
use crate::schema::{GROUP, ROW_WIDTH};
use crate::statements::{Insert, Statements};
use crate::stream_line::{StreamLine, find_or_add_stream, set_stream};
use outside::{Fault, RawRow, StreamPlan};
use sqlite_calls::{Database, Parameter, Statement};
use std::alloc::Global;

const SHOWN: u64 = 0;

const HIDDEN: u64 = 1;

/// A stream of the load that is open.
#[derive(Clone, Copy, Debug)]
pub struct Part {
    pub line: StreamLine,
    /// Whether the load uses the hidden side.
    pub is_hidden: bool,
    minimum: u64,
    generation: u64,
}

impl Part {
    /// The number of the side that the load uses.
    pub fn side(&self) -> u64 {
        if self.is_hidden { HIDDEN } else { SHOWN }
    }

    /// The place up to which that side is merged.
    pub fn mark(&self) -> u64 {
        if self.is_hidden {
            self.line.hidden_mark
        } else {
            self.line.shown_mark
        }
    }

    /// The generations of that side, from the first to the second.
    pub fn range(&self) -> Option<(u64, u64)> {
        if self.is_hidden {
            return Some((self.minimum, self.generation));
        }
        Some((self.line.marks.floor, self.line.marks.top?))
    }

    /// The part once its side is merged up to a place.
    pub fn merged(mut self, mark: u64) -> Part {
        if self.is_hidden {
            self.line.hidden_mark = mark;
        } else {
            self.line.shown_mark = mark;
        }
        self
    }

    /// The part once its hidden side is shown.
    pub fn shown(mut self) -> Part {
        self.line = self.line.shown(self.minimum, self.generation);
        self.is_hidden = false;
        self
    }
}

/// Opens a stream of a load.
pub fn open_part<B: Database>(
    base: &mut B,
    statements: &Statements,
    plan: &StreamPlan,
) -> Result<Part, Fault> {
    let before = find_or_add_stream(base, &statements.streams, &plan.id)?;
    if plan.hidden && !before.is_kept_for(plan) {
        let hidden = [
            Parameter::Integer(before.stream),
            Parameter::Integer(HIDDEN),
        ];
        base.execute(&statements.rows.drop_side, &hidden)?;
    }
    let line = before.opened(plan);
    set_stream(base, &statements.streams, &line)?;
    Ok(Part {
        line,
        is_hidden: plan.hidden,
        minimum: plan.minimum,
        generation: plan.generation,
    })
}

fn put_group<B: Database>(
    alloc: Global,
    base: &mut B,
    insert: &Statement,
    lead: &[Parameter<'static>],
    rows: &[RawRow],
) -> Result<(), Fault> {
    let mut parameters = Vec::with_capacity(alloc, GROUP * (ROW_WIDTH + 2))?;
    for row in rows {
        for parameter in lead {
            parameters.push(*parameter)?;
        }
        push_row(&mut parameters, row)?;
    }
    base.execute(insert, parameters.as_slice())
}

/// Puts rows, each behind the parameters that lead it.
pub fn put_rows<B: Database>(
    alloc: Global,
    base: &mut B,
    insert: &Insert,
    lead: &[Parameter<'static>],
    rows: &[RawRow],
) -> Result<(), Fault> {
    for group in rows.chunks(GROUP) {
        if group.len() == GROUP {
            put_group(alloc, base, &insert.group, lead, group)?;
        } else {
            put_one_by_one(alloc, base, &insert.one, lead, group)?;
        }
    }
    Ok(())
}

fn put_one_by_one<B: Database>(
    alloc: Global,
    base: &mut B,
    insert: &Statement,
    lead: &[Parameter<'static>],
    rows: &[RawRow],
) -> Result<(), Fault> {
    for row in rows {
        put_group(alloc, base, insert, lead, std::slice::from_ref(row))?;
    }
    Ok(())
}

/// Puts the winners of a part, and what is known of its stream then.
pub fn merge_part<B: Database>(
    alloc: Global,
    base: &mut B,
    statements: &Statements,
    part: &Part,
    winners: &[RawRow],
) -> Result<(), Fault> {
    let lead = [
        Parameter::Integer(part.line.stream),
        Parameter::Integer(part.side()),
    ];
    put_rows(alloc, base, &statements.rows.merge, &lead, winners)?;
    set_stream(base, &statements.streams, &part.line)
}

/// Drops the rows below the floor of a part whose hidden side is shown and the winners that were shown before, and shows
/// the hidden ones.
pub fn show_part<B: Database>(
    base: &mut B,
    statements: &Statements,
    part: &Part,
) -> Result<(), Fault> {
    let stream = Parameter::Integer(part.line.stream);
    let floor = Parameter::Integer(part.line.marks.floor);
    base.execute(&statements.rows.drop_below, &[stream, floor])?;
    base.execute(
        &statements.rows.drop_side,
        &[stream, Parameter::Integer(SHOWN)],
    )?;
    base.execute(&statements.rows.show_side, &[stream])?;
    set_stream(base, &statements.streams, &part.line)
}
