// What is prepared, by the words of the command line.
use basics::{Bytes, Name, NoMemory, Path, PathList};
use batch_prep::{PrepPlan, WorkItem};
use column_types::columns_of;
use outside::{SeqLine, SeqLineList};
use std::alloc::Global;

const LOAD: u64 = 7;

const MOMENT: u64 = 1_714_557_600_000;

const GENERATION: u64 = 3;

// The path of these names.
fn path_of(alloc: Global, text: &str) -> Result<Path, NoMemory> {
    let mut path = Path::new(alloc);
    for name in text.split('/') {
        path.push(Name::copy_of(alloc, name)?)?;
    }
    Ok(path)
}

fn paths_of(alloc: Global, text: &str) -> Result<PathList, NoMemory> {
    let mut paths = PathList::new(alloc);
    if text.is_empty() {
        return Ok(paths);
    }
    for part in text.split(',') {
        paths.push(path_of(alloc, part)?)?;
    }
    Ok(paths)
}

fn cursor_of(alloc: Global, text: &str) -> Result<Option<Path>, NoMemory> {
    if text.is_empty() {
        return Ok(None);
    }
    Ok(Some(path_of(alloc, text)?))
}

/// The plan of a schema, a key and a cursor.
pub fn plan_of(
    alloc: Global,
    schema: &[u8],
    key: &str,
    cursor: &str,
) -> Result<PrepPlan, NoMemory> {
    Ok(PrepPlan {
        stream: 0,
        load: LOAD,
        moment: MOMENT,
        generation: GENERATION,
        columns: columns_of(alloc, schema)?,
        key: paths_of(alloc, key)?,
        cursor: cursor_of(alloc, cursor)?,
    })
}

// The pieces between newlines, each with its number.
fn lines_of(alloc: Global, text: &[u8]) -> Result<SeqLineList, NoMemory> {
    let mut lines = SeqLineList::new(alloc);
    for (seq, line) in text.split(|byte| *byte == b'\n').enumerate() {
        lines.push(SeqLine {
            seq: seq as u64,
            line: Bytes::copy_of(alloc, line)?,
        })?;
    }
    Ok(lines)
}

/// The batch of a text's lines.
pub fn item_of(alloc: Global, plan: PrepPlan, text: &[u8]) -> Result<WorkItem, NoMemory> {
    Ok(WorkItem {
        batch: 0,
        plan,
        lines: lines_of(alloc, text)?,
    })
}
