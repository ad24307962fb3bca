// Scripts of calls on a dock, and what they tell.
ghost use Rattle.std.specs.Prelude.{◌≡◌, ◌<◌, IsTrue, length, IfOk, OnOk, OnErr};

use crate::rows::{Opening, Stamp, plan_of, rows_of};
use crate::watched::Watched;
use dedup_merge::{MergeFault, Merged, merge_page};
use outside::{Bytes, Dock, FailList, Fault, NoMemory};
use outside_mem::MemDock;
use std::alloc::Global;

/// A call, or a look at what the dock holds. Each tells one line.
#[derive(Clone, Copy)]
pub enum Command<'a> {
    /// Opens a load of the stream `a`.
    Open(Opening),
    /// Commits one row.
    Commit(Stamp<'a>),
    /// Merges a page of at most so many rows.
    Merge(u32),
    /// Shows the stream.
    Show,
    /// Tells what a reader sees, of a deduplicated stream or of another.
    See { dedup: bool },
    /// Tells how many events there are, and how many rows were read.
    Count,
}

fn open<D: Dock>(alloc: Global, dock: &mut D, opening: Opening) -> Result<(), Fault>
    ensures ok { OnOk result (length (D.seen dock.new).face.side_marks ≡ 1) }
    ensures err { OnErr result ((D.seen dock.new).face ≡ (D.seen dock.old).face) }
{
    let plan = plan_of(alloc, opening)?;
    let _load = dock.open_load(&plan)?;
    Ok(())
}

fn commit<D: Dock>(alloc: Global, dock: &mut D, stamp: Stamp<'_>) -> Result<(), Fault>
    requires { length (D.seen dock.old).face.side_marks ≡ 1 }
    ensures { length (D.seen dock.new).face.side_marks ≡ 1 }
{
    let rows = rows_of(alloc, &[stamp])?;
    dock.commit(0, &rows)
}

fn merge<D: Dock>(alloc: Global, dock: &mut D, page: u32) -> Result<&'static [u8], MergeFault>
    requires known { length (D.seen dock.old).face.side_marks ≡ 1 }
    requires some { 0 < page }
    ensures { length (D.seen dock.new).face.side_marks ≡ 1 }
{
    match merge_page(alloc, dock, 0, page)? {
        Merged::More => Ok(b"more"),
        Merged::Done => Ok(b"done"),
    }
}

fn show<D: Dock>(dock: &mut D) -> Result<(), Fault>
    requires { length (D.seen dock.old).face.side_marks ≡ 1 }
    ensures { length (D.seen dock.new).face.side_marks ≡ 1 }
{
    dock.show(0)
}

fn tell(told: &mut Bytes, done: Result<(), Fault>) -> Result<(), NoMemory> {
    match done {
        Ok(()) => told.extend(b"ok"),
        Err(Fault::Failed) => told.extend(b"failed"),
        Err(Fault::NoMemory) => Err(NoMemory),
    }
}

fn tell_merge(told: &mut Bytes, done: Result<&'static [u8], MergeFault>) -> Result<(), NoMemory> {
    match done {
        Ok(answer) => told.extend(answer),
        Err(MergeFault::StoreFault) => told.extend(b"failed"),
        Err(MergeFault::NoMemory) => Err(NoMemory),
    }
}

// Does a call on the load that is open.
fn call<D: Dock + Watched>(
    alloc: Global,
    dock: &mut D,
    command: Command<'_>,
    told: &mut Bytes,
) -> Result<(), NoMemory>
    requires { length (D.seen dock.old).face.side_marks ≡ 1 }
    ensures { length (D.seen dock.new).face.side_marks ≡ 1 }
{
    match command {
        Command::Commit(stamp) => {
            let done = commit(alloc, dock, stamp);
            tell(told, done)
        }
        Command::Merge(page) if page > 0 => {
            let done = merge(alloc, dock, page);
            tell_merge(told, done)
        }
        Command::Show => {
            let done = show(dock);
            tell(told, done)
        }
        Command::See { dedup } => dock.see(alloc, dedup, told),
        Command::Count => dock.count(alloc, told),
        _ => told.extend(b"no call"),
    }
}

// Does a command, and answers whether a load is open.
fn step<D: Dock + Watched>(
    alloc: Global,
    dock: &mut D,
    is_open: bool,
    command: Command<'_>,
    told: &mut Bytes,
) -> Result<bool, NoMemory>
    requires { IsTrue is_open → length (D.seen dock.old).face.side_marks ≡ 1 }
    ensures { IfOk result (λ opened. IsTrue opened → length (D.seen dock.new).face.side_marks ≡ 1) }
{
    if let Command::Open(opening) = command {
        let done = open(alloc, dock, opening);
        let opens = done.is_ok();
        tell(told, done)?;
        return Ok(opens || is_open);
    }
    if is_open {
        call(alloc, dock, command, told)?;
    } else {
        told.extend(b"no load")?;
    }
    Ok(is_open)
}

/// Does the commands one after another, and tells a line of each.
pub fn play<D: Dock + Watched>(
    alloc: Global,
    dock: &mut D,
    commands: &[Command<'_>],
) -> Result<Bytes, NoMemory> {
    let mut told = Bytes::new(alloc);
    let mut is_open = false;
    for command in commands {
        is_open = step(alloc, dock, is_open, *command, &mut told)?;
        told.extend(b"\n")?;
    }
    Ok(told)
}

/// The same on a dock in memory of which these calls fail.
pub fn play_in_memory(
    alloc: Global,
    failing: &[u64],
    commands: &[Command<'_>],
) -> Result<Bytes, NoMemory> {
    let mut fails = FailList::new(alloc);
    for number in failing {
        fails.push(*number)?;
    }
    let mut dock = MemDock::new(alloc, 0, fails)?;
    play(alloc, &mut dock, commands)
}
