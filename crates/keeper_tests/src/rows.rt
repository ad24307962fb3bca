// Plans and rows of the tests, and what is written of rows.
ghost use Rattle.std.specs.Prelude.{◌≡◌, length, IfOk};
ghost use Rattle.outside.specs.Dock.{HasOwnIds};

use crate::draw::Draw;
use outside::{
    Bytes, LoadPlan, Name, NoMemory, RawRow, RawRowList, StreamId, StreamIdList, StreamPlan,
};
use std::alloc::Global;

/// The stream `a`, without a namespace.
pub fn plain_stream(alloc: Global) -> Result<StreamId, NoMemory> {
    Ok(StreamId {
        name: Name::copy_of(alloc, "a")?,
        namespace: None,
    })
}

/// The stream `a` in the empty namespace.
pub fn spaced_stream(alloc: Global) -> Result<StreamId, NoMemory> {
    Ok(StreamId {
        name: Name::copy_of(alloc, "a")?,
        namespace: Some(Name::copy_of(alloc, "")?),
    })
}

fn plan_of(id: StreamId, draw: &mut Draw) -> StreamPlan {
    let generation = draw.below(4);
    StreamPlan {
        id,
        dedup: true,
        generation,
        minimum: draw.below(generation.saturating_add(1)),
        hidden: draw.once_in(2),
    }
}

/// A plan of one of the two streams; which one, its generations and its side are drawn.
pub fn drawn_plan(alloc: Global, draw: &mut Draw) -> Result<LoadPlan, NoMemory>
    ensures own { IfOk result HasOwnIds }
    ensures one { IfOk result (λ plan. length plan ≡ 1) }
{
    let id = if draw.once_in(3) {
        spaced_stream(alloc)?
    } else {
        plain_stream(alloc)?
    };
    let mut plan = LoadPlan::new(alloc);
    plan.push(plan_of(id, draw))?;
    Ok(plan)
}

/// Both streams, and one that never came.
pub fn asked_streams(alloc: Global) -> Result<StreamIdList, NoMemory> {
    let mut streams = StreamIdList::new(alloc);
    streams.push(plain_stream(alloc)?)?;
    streams.push(spaced_stream(alloc)?)?;
    streams.push(StreamId {
        name: Name::copy_of(alloc, "stranger")?,
        namespace: None,
    })?;
    Ok(streams)
}

/// A key that is drawn, or the empty one.
pub fn drawn_key(alloc: Global, draw: &mut Draw) -> Result<Bytes, NoMemory> {
    let number = draw.below(12);
    if number == 0 {
        return Ok(Bytes::new(alloc));
    }
    let text = format!(in alloc; "#{number}e0;")?;
    Ok(Bytes::from_string(text))
}

fn drawn_row(alloc: Global, load: u64, seq: u64, draw: &mut Draw) -> Result<RawRow, NoMemory> {
    let cursor = format!(in alloc; "#{}e0", draw.below(5).saturating_add(1))?;
    let raw_id = format!(in alloc; "id {load}:{seq}")?;
    let body = format!(in alloc; "{{\"n\":{seq},\"ë\":null}}")?;
    Ok(RawRow {
        load,
        seq,
        generation: draw.below(4),
        extracted_at: draw.below(1_000_000),
        loaded_at: 7,
        raw_id: Bytes::from_string(raw_id),
        key: drawn_key(alloc, draw)?,
        cursor: Bytes::from_string(cursor),
        body: Bytes::from_string(body),
        columns: Bytes::copy_of(alloc, b"{}")?,
        meta: Bytes::copy_of(alloc, b"{\"changes\":[]}")?,
    })
}

/// So many rows of a load, from this number on.
pub fn drawn_rows(
    alloc: Global,
    load: u64,
    first: u64,
    count: u64,
    draw: &mut Draw,
) -> Result<RawRowList, NoMemory> {
    let mut rows = RawRowList::new(alloc);
    for at in 0..count {
        rows.push(drawn_row(alloc, load, first.saturating_add(at), draw)?)?;
    }
    Ok(rows)
}

/// Writes a row.
pub fn tell_row(alloc: Global, told: &mut Bytes, row: &RawRow) -> Result<(), NoMemory> {
    let numbers = format!(in alloc;
        " {}.{} {} {} {} ",
        row.load, row.seq, row.generation, row.extracted_at, row.loaded_at
    )?;
    told.extend(numbers.as_bytes())?;
    for text in [
        &row.raw_id,
        &row.key,
        &row.cursor,
        &row.body,
        &row.columns,
        &row.meta,
    ] {
        told.extend(text.as_slice())?;
        told.extend(b"|")?;
    }
    Ok(())
}
