// The text of a store.
use crate::fields::{FINAL_ROWS, Fields, LOADS, RAW_ROWS, STREAMS};
use csv::{Writer, WriterBuilder};
use outside::{Fault, Generations, RawRow, StreamTable, TableSide, Tables};
use std::alloc::Global;

fn put(out: &mut Writer<Vec<u8>>, fields: &Fields) -> Result<(), Fault> {
    match out.write_byte_record(fields.record()) {
        Ok(()) => Ok(()),
        Err(_) => Err(Fault::Failed),
    }
}

fn put_load(alloc: Global, out: &mut Writer<Vec<u8>>, load: u64, moment: u64) -> Result<(), Fault> {
    let mut fields = Fields::of(alloc, LOADS)?;
    fields.number(load)?;
    fields.number(moment)?;
    put(out, &fields)
}

fn put_stream(
    alloc: Global,
    out: &mut Writer<Vec<u8>>,
    stream: u64,
    table: &StreamTable,
) -> Result<(), Fault> {
    let mut fields = Fields::of(alloc, STREAMS)?;
    fields.number(stream)?;
    fields.text(table.id.name.as_str().as_bytes())?;
    match &table.id.namespace {
        Some(namespace) => {
            fields.number(1)?;
            fields.text(namespace.as_str().as_bytes())?;
        }
        None => {
            fields.number(0)?;
            fields.text(b"")?;
        }
    }
    fields.number(table.marks.floor)?;
    fields.optional(table.marks.top)?;
    fields.optional(table.marks.greatest)?;
    fields.number(table.shown.mark)?;
    fields.number(table.hidden.mark)?;
    put_hidden_for(&mut fields, table.hidden_for)?;
    put(out, &fields)
}

fn put_hidden_for(fields: &mut Fields, hidden_for: Option<Generations>) -> Result<(), Fault> {
    match hidden_for {
        Some(kept) => {
            fields.number(kept.low)?;
            fields.number(kept.high)
        }
        None => {
            fields.optional(None)?;
            fields.optional(None)
        }
    }
}

fn put_raw_rows(
    alloc: Global,
    out: &mut Writer<Vec<u8>>,
    stream: u64,
    table: &StreamTable,
) -> Result<(), Fault> {
    for placed in table.rows.as_slice() {
        let mut fields = Fields::of(alloc, RAW_ROWS)?;
        fields.number(placed.place)?;
        fields.number(stream)?;
        fields.row(&placed.row)?;
        put(out, &fields)?;
    }
    Ok(())
}

fn put_winner(
    alloc: Global,
    out: &mut Writer<Vec<u8>>,
    stream: u64,
    side: u64,
    winner: &RawRow,
) -> Result<(), Fault> {
    let mut fields = Fields::of(alloc, FINAL_ROWS)?;
    fields.number(stream)?;
    fields.number(side)?;
    fields.row(winner)?;
    put(out, &fields)
}

fn put_winners(
    alloc: Global,
    out: &mut Writer<Vec<u8>>,
    stream: u64,
    side: u64,
    winners: &TableSide,
) -> Result<(), Fault> {
    let copied = winners.winners.copied(alloc)?;
    for winner in copied.as_slice() {
        put_winner(alloc, out, stream, side, winner)?;
    }
    Ok(())
}

fn put_table(
    alloc: Global,
    out: &mut Writer<Vec<u8>>,
    stream: u64,
    table: &StreamTable,
) -> Result<(), Fault> {
    put_stream(alloc, out, stream, table)?;
    put_raw_rows(alloc, out, stream, table)?;
    put_winners(alloc, out, stream, 0, &table.shown)?;
    put_winners(alloc, out, stream, 1, &table.hidden)
}

/// The text of these tables, behind the moments of the loads.
pub fn text_of(alloc: Global, moments: &[u64], tables: &Tables) -> Result<Vec<u8>, Fault> {
    let mut out = WriterBuilder::new()
        .flexible(true)
        .from_writer(Vec::new(alloc));
    for (index, moment) in moments.iter().enumerate() {
        put_load(alloc, &mut out, (index as u64).saturating_add(1), *moment)?;
    }
    for (index, table) in tables.streams.as_slice().iter().enumerate() {
        put_table(alloc, &mut out, (index as u64).saturating_add(1), table)?;
    }
    match out.into_inner() {
        Ok(text) => Ok(text),
        Err(_) => Err(Fault::Failed),
    }
}
