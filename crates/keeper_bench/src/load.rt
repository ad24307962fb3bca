// A load of lines into one stream.
ghost use Rattle.std.specs.Prelude.{◌≡◌, ◌<◌, length, IfOk, OnOk};
ghost use Rattle.outside.specs.Dock.{HasOwnIds};

use basics::{Bytes, Name, NoMemory, StreamId};
use dedup_merge::{MergeFault, Merged, merge_page};
use outside::{Dock, Fault, Load, LoadPlan, Polled, RawRow, RawRowList, StreamPlan};
use std::alloc::Global;

const PAGE: u32 = 1000;

/// What is loaded, and how many rows are committed together.
#[derive(Clone, Copy)]
pub struct Job {
    pub dedup: bool,
    pub batch: u32,
}

// What a load has done.
#[derive(Clone, Copy)]
struct Progress {
    load: Load,
    seq: u64,
    is_over: bool,
}

fn plan_of(alloc: Global, dedup: bool) -> Result<LoadPlan, NoMemory>
    ensures own { IfOk result HasOwnIds }
    ensures one { IfOk result (λ plan. length plan ≡ 1) }
{
    let mut plan = LoadPlan::new(alloc);
    plan.push(StreamPlan {
        id: StreamId {
            name: Name::copy_of(alloc, "items")?,
            namespace: None,
        },
        dedup,
        generation: 0,
        minimum: 0,
        hidden: false,
    })?;
    Ok(plan)
}

// The parts of a line before the first space and behind it.
fn split(line: &[u8]) -> (&[u8], &[u8]) {
    match line.iter().position(|byte| *byte == b' ') {
        Some(at) => (&line[..at], &line[at + 1..]),
        None => (line, b""),
    }
}

fn row_of(alloc: Global, load: Load, seq: u64, line: &[u8]) -> Result<RawRow, NoMemory> {
    let (key, rest) = split(line);
    let (cursor, body) = split(rest);
    let raw_id = format!(in alloc; "01890a5d-ac96-774b-bcce-{seq:012}")?;
    Ok(RawRow {
        load: load.load,
        seq,
        generation: 0,
        extracted_at: load.moment,
        loaded_at: load.moment,
        raw_id: Bytes::from_string(raw_id),
        key: Bytes::copy_of(alloc, key)?,
        cursor: Bytes::copy_of(alloc, cursor)?,
        body: Bytes::copy_of(alloc, body)?,
        columns: Bytes::copy_of(alloc, b"{}")?,
        meta: Bytes::copy_of(alloc, b"{\"changes\":[]}")?,
    })
}

fn open<D: Dock>(alloc: Global, dock: &mut D, name: &str, dedup: bool) -> Result<Load, Fault>
    ensures { OnOk result (length (D.seen dock.new).face.side_marks ≡ 1) }
{
    dock.open_store(name)?;
    let plan = plan_of(alloc, dedup)?;
    dock.open_load(&plan)
}

// The rows of the next lines, as many as a batch has or until the input ends.
fn next_rows<D: Dock>(
    alloc: Global,
    dock: &mut D,
    batch: u32,
    progress: &mut Progress,
) -> Result<RawRowList, Fault>
    requires { length (D.seen dock.old).face.side_marks ≡ 1 }
    ensures { length (D.seen dock.new).face.side_marks ≡ 1 }
{
    let mut rows = RawRowList::new(alloc);
    for _ in 0..u64::MAX {
        match dock.poll_line() {
            Polled::Line(line) | Polled::Torn(line) => {
                rows.push(row_of(alloc, progress.load, progress.seq, line.as_slice())?)?;
                progress.seq = progress.seq.saturating_add(1);
            }
            Polled::NotYet => dock.wait(),
            Polled::End => progress.is_over = true,
            Polled::TooLong | Polled::Failed => return Err(Fault::Failed),
            Polled::NoMemory => return Err(Fault::NoMemory),
        }
        if progress.is_over || rows.len() >= batch as usize {
            return Ok(rows);
        }
    }
    Ok(rows)
}

// Commits the next batch and says it.
fn commit_next<D: Dock>(
    alloc: Global,
    dock: &mut D,
    batch: u32,
    progress: &mut Progress,
) -> Result<(), Fault>
    requires { length (D.seen dock.old).face.side_marks ≡ 1 }
    ensures { length (D.seen dock.new).face.side_marks ≡ 1 }
{
    let rows = next_rows(alloc, dock, batch, progress)?;
    dock.commit(0, &rows)?;
    let text = format!(in alloc; "committed {}", progress.seq)?;
    dock.emit(text.as_bytes())
}

fn merge_next<D: Dock>(alloc: Global, dock: &mut D) -> Result<Merged, Fault>
    requires { length (D.seen dock.old).face.side_marks ≡ 1 }
    ensures { length (D.seen dock.new).face.side_marks ≡ 1 }
{
    match merge_page(alloc, dock, 0, PAGE) {
        Ok(merged) => Ok(merged),
        Err(MergeFault::StoreFault) => Err(Fault::Failed),
        Err(MergeFault::NoMemory) => Err(Fault::NoMemory),
    }
}

fn merge_all<D: Dock>(alloc: Global, dock: &mut D) -> Result<(), Fault>
    requires { length (D.seen dock.old).face.side_marks ≡ 1 }
{
    for _ in 0..u64::MAX {
        if merge_next(alloc, dock)? == Merged::Done {
            break;
        }
    }
    dock.emit(b"merged")
}

/// Loads all lines of the input.
pub fn load<D: Dock>(alloc: Global, dock: &mut D, name: &str, job: Job) -> Result<(), Fault> {
    let mut progress = Progress {
        load: open(alloc, dock, name, job.dedup)?,
        seq: 0,
        is_over: false,
    };
    for _ in 0..u64::MAX {
        commit_next(alloc, dock, job.batch, &mut progress)?;
        if progress.is_over {
            break;
        }
    }
    if job.dedup {
        merge_all(alloc, dock)
    } else {
        Ok(())
    }
}
