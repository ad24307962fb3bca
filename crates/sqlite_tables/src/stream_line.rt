// What the store knows of a stream, and what a load makes of it.
use crate::rows::{integer_at, optional_integer_at, parameter_of};
use crate::statements::StreamStatements;
use outside::{Fault, Marks, StreamId, StreamPlan};
use sqlite_calls::{Database, Parameter};

/// A row of the table of streams.
#[derive(Clone, Copy, Debug)]
pub struct StreamLine {
    /// The stream's number in the store.
    pub stream: u64,
    pub marks: Marks,
    pub shown_mark: u64,
    pub hidden_mark: u64,
    /// What the hidden side is kept for.
    pub hidden_minimum: Option<u64>,
    pub hidden_generation: Option<u64>,
}

fn id_parameters(id: &StreamId) -> [Parameter<'_>; 3] {
    let name = Parameter::Text(id.name.as_str().as_bytes());
    match &id.namespace {
        Some(namespace) => [
            name,
            Parameter::Integer(1),
            Parameter::Text(namespace.as_str().as_bytes()),
        ],
        None => [name, Parameter::Integer(0), Parameter::Text(b"")],
    }
}

/// What the store knows of a stream; nothing where it never came.
pub fn find_stream<B: Database>(
    base: &mut B,
    statements: &StreamStatements,
    id: &StreamId,
) -> Result<Option<StreamLine>, Fault> {
    let found = base.query(&statements.find, &id_parameters(id))?;
    if found.is_empty() {
        return Ok(None);
    }
    Ok(Some(StreamLine {
        stream: integer_at(&found, 0, 0)?,
        marks: Marks {
            floor: integer_at(&found, 0, 1)?,
            top: optional_integer_at(&found, 0, 2)?,
            greatest: optional_integer_at(&found, 0, 3)?,
        },
        shown_mark: integer_at(&found, 0, 4)?,
        hidden_mark: integer_at(&found, 0, 5)?,
        hidden_minimum: optional_integer_at(&found, 0, 6)?,
        hidden_generation: optional_integer_at(&found, 0, 7)?,
    }))
}

/// The marks of a stream, of which nothing may be known.
pub fn marks_of(line: Option<StreamLine>) -> Marks {
    match line {
        Some(line) => line.marks,
        None => Marks {
            floor: 0,
            top: None,
            greatest: None,
        },
    }
}

/// Sets what the store knows of a stream.
pub fn set_stream<B: Database>(
    base: &mut B,
    statements: &StreamStatements,
    line: &StreamLine,
) -> Result<(), Fault> {
    let parameters = [
        Parameter::Integer(line.stream),
        Parameter::Integer(line.marks.floor),
        parameter_of(line.marks.top),
        parameter_of(line.marks.greatest),
        Parameter::Integer(line.shown_mark),
        Parameter::Integer(line.hidden_mark),
        parameter_of(line.hidden_minimum),
        parameter_of(line.hidden_generation),
    ];
    base.execute(&statements.set, &parameters)
}

/// What the store knows of a stream, which is added where it never came.
pub fn find_or_add_stream<B: Database>(
    base: &mut B,
    statements: &StreamStatements,
    id: &StreamId,
) -> Result<StreamLine, Fault> {
    if let Some(line) = find_stream(base, statements, id)? {
        return Ok(line);
    }
    base.execute(&statements.add, &id_parameters(id))?;
    find_stream(base, statements, id)?.ok_or(Fault::Failed)
}

fn raised_to(before: Option<u64>, generation: u64) -> Option<u64> {
    match before {
        Some(before) => Some(before.max(generation)),
        None => Some(generation),
    }
}

impl StreamLine {
    /// Whether the hidden side was kept for this plan.
    pub fn is_kept_for(&self, plan: &StreamPlan) -> bool {
        self.hidden_minimum == Some(plan.minimum) && self.hidden_generation == Some(plan.generation)
    }

    /// Once a load with this plan is open: the greatest generation rises to the plan's. Of a stream that is not hidden
    /// the top rises likewise, and where it does, the shown side is merged anew. A hidden side that was kept for another
    /// plan is merged from nothing.
    pub fn opened(mut self, plan: &StreamPlan) -> StreamLine {
        self.marks.greatest = raised_to(self.marks.greatest, plan.generation);
        if plan.hidden {
            if !self.is_kept_for(plan) {
                self.hidden_mark = 0;
            }
            self.hidden_minimum = Some(plan.minimum);
            self.hidden_generation = Some(plan.generation);
        } else {
            let top = raised_to(self.marks.top, plan.generation);
            if self.marks.top != top {
                self.shown_mark = 0;
            }
            self.marks.top = top;
        }
        self
    }

    /// Once the hidden side of a load with this minimum and this generation is the shown one.
    pub fn shown(mut self, minimum: u64, generation: u64) -> StreamLine {
        self.marks.floor = self.marks.floor.max(minimum);
        self.marks.top = Some(generation);
        self.shown_mark = self.hidden_mark;
        self.hidden_mark = 0;
        self.hidden_minimum = None;
        self.hidden_generation = None;
        self
    }
}
