// Rows, plans and what is written of rows.
ghost use Rattle.std.specs.Prelude.{◌≡◌, length, IfOk};
ghost use Rattle.outside.specs.Dock.{HasOwnIds};

use outside::{Bytes, LoadPlan, Name, NoMemory, RawRow, RawRowList, StreamId, StreamPlan};
use std::alloc::Global;

/// What a load does with the stream.
#[derive(Clone, Copy)]
pub struct Opening {
    pub generation: u64,
    pub minimum: u64,
    pub hidden: bool,
}

/// What tells a row of the tests from others.
#[derive(Clone, Copy)]
pub struct Stamp<'a> {
    pub load: u64,
    pub seq: u64,
    pub generation: u64,
    pub key: &'a [u8],
    pub cursor: &'a [u8],
}

/// The stream `a`.
pub fn stream_a(alloc: Global) -> Result<StreamId, NoMemory> {
    Ok(StreamId {
        name: Name::copy_of(alloc, "a")?,
        namespace: None,
    })
}

/// A plan of the stream `a` alone.
pub fn plan_of(alloc: Global, opening: Opening) -> Result<LoadPlan, NoMemory>
    ensures own { IfOk result (λ plan. HasOwnIds plan) }
    ensures one { IfOk result (λ plan. length plan ≡ 1) }
{
    let mut plan = LoadPlan::new(alloc);
    plan.push(StreamPlan {
        id: stream_a(alloc)?,
        dedup: true,
        generation: opening.generation,
        minimum: opening.minimum,
        hidden: opening.hidden,
    })?;
    Ok(plan)
}

fn row_of(alloc: Global, stamp: Stamp<'_>) -> Result<RawRow, NoMemory> {
    Ok(RawRow {
        load: stamp.load,
        seq: stamp.seq,
        generation: stamp.generation,
        extracted_at: 1,
        loaded_at: 0,
        raw_id: Bytes::new(alloc),
        key: Bytes::copy_of(alloc, stamp.key)?,
        cursor: Bytes::copy_of(alloc, stamp.cursor)?,
        body: Bytes::new(alloc),
        columns: Bytes::new(alloc),
        meta: Bytes::new(alloc),
    })
}

/// Rows of these stamps.
pub fn rows_of(alloc: Global, stamps: &[Stamp<'_>]) -> Result<RawRowList, NoMemory> {
    let mut rows = RawRowList::new(alloc);
    for stamp in stamps {
        rows.push(row_of(alloc, *stamp)?)?;
    }
    Ok(rows)
}

/// Writes load and sequence of each row.
pub fn write_rows(alloc: Global, told: &mut Bytes, rows: &[RawRow]) -> Result<(), NoMemory> {
    told.extend(b"[")?;
    for row in rows {
        let text = format!(in alloc; " {}.{}", row.load, row.seq)?;
        told.extend(text.as_bytes())?;
    }
    told.extend(b" ]")
}
