// Calls on a dock that are drawn, and what they tell.
ghost use Rattle.std.specs.Prelude.{◌≡◌, ◌<◌, length, IfOk, OnOk};

use crate::draw::Draw;
use crate::rows::{asked_streams, drawn_key, drawn_plan, drawn_rows, tell_row};
use dedup_merge::{MergeFault, Merged, merge_page};
use outside::{Bytes, Dock, Fault, Load, NoMemory};
use std::alloc::Global;

// Opens a load of one stream.
fn open<D: Dock>(alloc: Global, dock: &mut D, draw: &mut Draw) -> Result<Load, Fault>
    ensures { OnOk result (length (D.seen dock.new).face.side_marks ≡ 1) }
{
    let plan = drawn_plan(alloc, draw)?;
    dock.open_load(&plan)
}

fn tell_marks<D: Dock>(alloc: Global, dock: &mut D, told: &mut Bytes) -> Result<(), Fault>
    requires { length (D.seen dock.old).face.side_marks ≡ 1 }
    ensures { length (D.seen dock.new).face.side_marks ≡ 1 }
{
    let streams = asked_streams(alloc)?;
    let marks = dock.read_marks(alloc, &streams)?;
    for mark in marks.as_slice() {
        let text = format!(in alloc; " {} {:?} {:?};", mark.floor, mark.top, mark.greatest)?;
        told.extend(text.as_bytes())?;
    }
    Ok(())
}

fn tell_page<D: Dock>(alloc: Global, dock: &mut D, most: u32, told: &mut Bytes) -> Result<(), Fault>
    requires known { length (D.seen dock.old).face.side_marks ≡ 1 }
    requires some { 0 < most }
    ensures { length (D.seen dock.new).face.side_marks ≡ 1 }
{
    let page = dock.read_unmerged(alloc, 0, most)?;
    let text = format!(in alloc; " page to {}, more {}:", page.mark, page.more)?;
    told.extend(text.as_bytes())?;
    for row in page.rows.as_slice() {
        tell_row(alloc, told, row)?;
    }
    Ok(())
}

fn tell_winner<D: Dock>(
    alloc: Global,
    dock: &mut D,
    draw: &mut Draw,
    told: &mut Bytes,
) -> Result<(), Fault>
    requires { length (D.seen dock.old).face.side_marks ≡ 1 }
    ensures { length (D.seen dock.new).face.side_marks ≡ 1 }
{
    let key = drawn_key(alloc, draw)?;
    match dock.read_winner(alloc, 0, key.as_slice())? {
        Some(row) => tell_row(alloc, told, &row)?,
        None => told.extend(b" no winner")?,
    }
    Ok(())
}

fn merge<D: Dock>(alloc: Global, dock: &mut D, most: u32, told: &mut Bytes) -> Result<(), Fault>
    requires known { length (D.seen dock.old).face.side_marks ≡ 1 }
    requires some { 0 < most }
    ensures { length (D.seen dock.new).face.side_marks ≡ 1 }
{
    match merge_page(alloc, dock, 0, most) {
        Ok(Merged::More) => told.extend(b" more")?,
        Ok(Merged::Done) => told.extend(b" done")?,
        Err(MergeFault::NoMemory) => return Err(Fault::NoMemory),
        Err(MergeFault::StoreFault) => return Err(Fault::Failed),
    }
    Ok(())
}

fn commit<D: Dock>(
    alloc: Global,
    dock: &mut D,
    load: u64,
    seq: u64,
    draw: &mut Draw,
) -> Result<u64, Fault>
    requires { length (D.seen dock.old).face.side_marks ≡ 1 }
    ensures { length (D.seen dock.new).face.side_marks ≡ 1 }
{
    let count = draw.below(45);
    let rows = drawn_rows(alloc, load, seq, count, draw)?;
    dock.commit(0, &rows)?;
    Ok(seq.saturating_add(count))
}

// A call on the load that is open; answers the number of its next row.
fn call<D: Dock>(
    alloc: Global,
    dock: &mut D,
    load: u64,
    seq: u64,
    draw: &mut Draw,
    told: &mut Bytes,
) -> Result<u64, Fault>
    requires { length (D.seen dock.old).face.side_marks ≡ 1 }
    ensures { length (D.seen dock.new).face.side_marks ≡ 1 }
{
    match draw.below(12) {
        0 | 1 | 2 => return commit(alloc, dock, load, seq, draw),
        3 | 4 => merge(alloc, dock, 7, told)?,
        5 => merge(alloc, dock, 1000, told)?,
        6 => tell_page(alloc, dock, 5, told)?,
        7 | 8 | 9 => tell_winner(alloc, dock, draw, told)?,
        10 => tell_marks(alloc, dock, told)?,
        _ => dock.show(0)?,
    }
    Ok(seq)
}

// Opens a load and makes calls on it.
fn play_load<D: Dock>(
    alloc: Global,
    dock: &mut D,
    draw: &mut Draw,
    told: &mut Bytes,
) -> Result<(), Fault> {
    let load = open(alloc, dock, draw)?;
    let text = format!(in alloc; "load {} at {}\n", load.load, load.moment)?;
    told.extend(text.as_bytes())?;
    let mut seq = 0;
    for _turn in 0..25 {
        seq = call(alloc, dock, load.load, seq, draw, told)?;
        told.extend(b"\n")?;
    }
    Ok(())
}

/// Opens the store, and then so many loads of this seed. What the calls tell is the same on each dock on which the same
/// was played before.
pub fn play<D: Dock>(
    alloc: Global,
    dock: &mut D,
    name: &str,
    seed: u64,
    loads: u32,
) -> Result<Bytes, Fault> {
    let mut told = Bytes::new(alloc);
    let mut draw = Draw::new(seed);
    dock.open_store(name)?;
    for _load in 0..loads {
        play_load(alloc, dock, &mut draw, &mut told)?;
    }
    Ok(told)
}

/// Asks for marks and opens a load, which both fail where no store is open.
pub fn calls_before_opening<D: Dock>(alloc: Global, dock: &mut D) -> Result<(), NoMemory> {
    let streams = asked_streams(alloc)?;
    let _ = dock.read_marks(alloc, &streams);
    let plan = drawn_plan(alloc, &mut Draw::new(1))?;
    let _ = dock.open_load(&plan);
    Ok(())
}
