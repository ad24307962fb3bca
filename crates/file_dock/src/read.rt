// A store of its text.
use crate::fields::{
    FINAL_ROWS, LOADS, RAW_ROWS, STREAMS, number_at, optional_at, row_at, text_at,
};
use basics::{Name, Sequence, StreamId};
use csv::{ByteRecord, ReaderBuilder};
use outside::{
    Fault, Generations, LoadPlan, Marks, PlacedRow, PlacedRowList, RawRowList, StreamTable,
    TableSide, Tables, Winners,
};
use std::alloc::Global;

/// A store: the moments of its loads, from the first on, and its tables.
#[derive(Drop)]
pub struct Stored {
    pub moments: Vec<u64>,
    pub tables: Tables,
}

// What was read so far.
#[derive(Drop)]
struct Reading {
    alloc: Global,
    moments: Vec<u64>,
    places: u64,
    streams: Vec<StreamTable>,
}

fn name_at(alloc: Global, record: &ByteRecord, at: usize) -> Result<Name, Fault> {
    let Some(bytes) = record.get(at) else {
        return Err(Fault::Failed);
    };
    match str::from_utf8(bytes) {
        Ok(text) => Ok(Name::copy_of(alloc, text)?),
        Err(_) => Err(Fault::Failed),
    }
}

fn id_at(alloc: Global, record: &ByteRecord) -> Result<StreamId, Fault> {
    let name = name_at(alloc, record, 2)?;
    let namespace = match number_at(record, 3)? {
        0 => None,
        _ => Some(name_at(alloc, record, 4)?),
    };
    Ok(StreamId { name, namespace })
}

fn hidden_for(record: &ByteRecord) -> Result<Option<Generations>, Fault> {
    match (optional_at(record, 10)?, optional_at(record, 11)?) {
        (Some(low), Some(high)) => Ok(Some(Generations { low, high })),
        _ => Ok(None),
    }
}

fn side_of(alloc: Global, mark: u64) -> TableSide {
    TableSide {
        mark,
        winners: Winners::new(alloc),
    }
}

fn table_of(alloc: Global, record: &ByteRecord) -> Result<StreamTable, Fault> {
    Ok(StreamTable {
        id: id_at(alloc, record)?,
        marks: Marks {
            floor: number_at(record, 5)?,
            top: optional_at(record, 6)?,
            greatest: optional_at(record, 7)?,
        },
        rows: PlacedRowList::new(alloc),
        shown: side_of(alloc, number_at(record, 8)?),
        hidden: side_of(alloc, number_at(record, 9)?),
        hidden_for: hidden_for(record)?,
    })
}

// The number of what comes next in a list that is counted from 1.
fn is_next(number: u64, len: usize) -> bool {
    number == (len as u64).saturating_add(1)
}

impl Reading {
    fn take_load(&mut self, record: &ByteRecord) -> Result<(), Fault> {
        if !is_next(number_at(record, 1)?, self.moments.len()) {
            return Err(Fault::Failed);
        }
        self.moments.push(number_at(record, 2)?)?;
        Ok(())
    }

    fn take_stream(&mut self, record: &ByteRecord) -> Result<(), Fault> {
        if !is_next(number_at(record, 1)?, self.streams.len()) {
            return Err(Fault::Failed);
        }
        let table = table_of(self.alloc, record)?;
        self.places = self.places.max(table.shown.mark).max(table.hidden.mark);
        self.streams.push(table)?;
        Ok(())
    }

    // The table of the stream whose number, from 1, stands in a field.
    fn stream_at(&mut self, record: &ByteRecord, at: usize) -> Result<&mut StreamTable, Fault> {
        let Some(index) = number_at(record, at)?.checked_sub(1) else {
            return Err(Fault::Failed);
        };
        match self.streams.get_mut(index as usize) {
            Some(table) => Ok(table),
            None => Err(Fault::Failed),
        }
    }

    fn take_row(&mut self, record: &ByteRecord) -> Result<(), Fault> {
        let place = number_at(record, 1)?;
        let row = row_at(self.alloc, record, 3)?;
        self.places = self.places.max(place);
        self.stream_at(record, 2)?
            .rows
            .push(PlacedRow { place, row })?;
        Ok(())
    }

    fn take_winner(&mut self, record: &ByteRecord) -> Result<(), Fault> {
        let alloc = self.alloc;
        let mut winner = RawRowList::new(alloc);
        let row = row_at(alloc, record, 3)?;
        // a row without a key wins nothing, and one of a load to come cannot stand
        if row.key.is_empty() || row.load == 0 || row.load > self.moments.len() as u64 {
            return Err(Fault::Failed);
        }
        winner.push(row)?;
        let side = number_at(record, 2)?;
        let table = self.stream_at(record, 1)?;
        match side {
            0 => table.shown.winners.put(alloc, winner)?,
            1 => table.hidden.winners.put(alloc, winner)?,
            _ => return Err(Fault::Failed),
        }
        Ok(())
    }

    fn take(&mut self, record: &ByteRecord) -> Result<(), Fault> {
        let Some(table) = record.get(0) else {
            return Err(Fault::Failed);
        };
        if table == RAW_ROWS.as_bytes() {
            self.take_row(record)
        } else if table == FINAL_ROWS.as_bytes() {
            self.take_winner(record)
        } else if table == STREAMS.as_bytes() {
            self.take_stream(record)
        } else if table == LOADS.as_bytes() {
            self.take_load(record)
        } else {
            Err(Fault::Failed)
        }
    }

    fn into_stored(self, alloc: Global) -> Stored {
        Stored {
            tables: Tables {
                load: self.moments.len() as u64,
                places: self.places,
                plan: LoadPlan::new(alloc),
                streams: Sequence::from_vec(self.streams),
            },
            moments: self.moments,
        }
    }
}

/// The store of a text, of which no load is open.
pub fn store_of(alloc: Global, text: &[u8]) -> Result<Stored, Fault> {
    let mut records = ReaderBuilder::new()
        .has_headers(false)
        .flexible(true)
        .from_reader(alloc, text);
    let mut record = ByteRecord::new(alloc);
    let mut reading = Reading {
        alloc,
        moments: Vec::new(alloc),
        places: 0,
        streams: Vec::new(alloc),
    };
    for _ in 0..u64::MAX {
        match records.read_byte_record(&mut record) {
            Ok(true) => reading.take(&record)?,
            Ok(false) => return Ok(reading.into_stored(alloc)),
            Err(_) => return Err(Fault::Failed),
        }
    }
    Err(Fault::Failed)
}
