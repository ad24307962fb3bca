// The fields of a record of the file: numbers in decimal, null as a hyphen, texts as they are, blobs in hexadecimal.
use csv::ByteRecord;
use outside::{Bytes, Fault, RawRow};
use std::alloc::Global;

pub const LOADS: &str = "loads";

pub const STREAMS: &str = "streams";

pub const RAW_ROWS: &str = "raw_rows";

pub const FINAL_ROWS: &str = "final_rows";

const NULL: &[u8] = b"-";

/// A record that grows by one field after another.
#[derive(Drop)]
pub struct Fields {
    alloc: Global,
    record: ByteRecord,
}

impl Fields {
    /// A record of this table.
    pub fn of(alloc: Global, table: &str) -> Result<Self, Fault> {
        let mut fields = Fields {
            alloc,
            record: ByteRecord::new(alloc),
        };
        fields.text(table.as_bytes())?;
        Ok(fields)
    }

    pub fn record(&self) -> &ByteRecord {
        &self.record
    }

    pub fn text(&mut self, text: &[u8]) -> Result<(), Fault> {
        self.record.push_field(text)?;
        Ok(())
    }

    pub fn number(&mut self, number: u64) -> Result<(), Fault> {
        let text = format!(in self.alloc; "{number}")?;
        self.text(text.as_bytes())
    }

    pub fn optional(&mut self, number: Option<u64>) -> Result<(), Fault> {
        match number {
            Some(number) => self.number(number),
            None => self.text(NULL),
        }
    }

    fn blob(&mut self, bytes: &[u8]) -> Result<(), Fault> {
        let text = hex::encode(self.alloc, bytes)?;
        self.text(text.as_bytes())
    }

    /// The fields of a row.
    pub fn row(&mut self, row: &RawRow) -> Result<(), Fault> {
        for number in [
            row.load,
            row.seq,
            row.generation,
            row.extracted_at,
            row.loaded_at,
        ] {
            self.number(number)?;
        }
        self.text(row.raw_id.as_slice())?;
        self.blob(row.key.as_slice())?;
        self.blob(row.cursor.as_slice())?;
        self.text(row.body.as_slice())?;
        self.text(row.columns.as_slice())?;
        self.text(row.meta.as_slice())
    }
}

fn field_at(record: &ByteRecord, at: usize) -> Result<&[u8], Fault> {
    match record.get(at) {
        Some(field) => Ok(field),
        None => Err(Fault::Failed),
    }
}

/// The text in a field.
pub fn text_at(alloc: Global, record: &ByteRecord, at: usize) -> Result<Bytes, Fault> {
    Ok(Bytes::copy_of(alloc, field_at(record, at)?)?)
}

/// The number in a field.
pub fn number_at(record: &ByteRecord, at: usize) -> Result<u64, Fault> {
    let Ok(text) = str::from_utf8(field_at(record, at)?) else {
        return Err(Fault::Failed);
    };
    match text.parse::<u64>() {
        Ok(number) => Ok(number),
        Err(_) => Err(Fault::Failed),
    }
}

/// The number in a field, none where it is null.
pub fn optional_at(record: &ByteRecord, at: usize) -> Result<Option<u64>, Fault> {
    if field_at(record, at)? == NULL {
        return Ok(None);
    }
    Ok(Some(number_at(record, at)?))
}

fn blob_at(alloc: Global, record: &ByteRecord, at: usize) -> Result<Bytes, Fault> {
    match hex::decode(alloc, field_at(record, at)?) {
        Ok(bytes) => Ok(Bytes::from_vec(bytes)),
        Err(_) => Err(Fault::Failed),
    }
}

/// The row whose fields begin at this one.
pub fn row_at(alloc: Global, record: &ByteRecord, first: usize) -> Result<RawRow, Fault> {
    Ok(RawRow {
        load: number_at(record, first)?,
        seq: number_at(record, first.saturating_add(1))?,
        generation: number_at(record, first.saturating_add(2))?,
        extracted_at: number_at(record, first.saturating_add(3))?,
        loaded_at: number_at(record, first.saturating_add(4))?,
        raw_id: text_at(alloc, record, first.saturating_add(5))?,
        key: blob_at(alloc, record, first.saturating_add(6))?,
        cursor: blob_at(alloc, record, first.saturating_add(7))?,
        body: text_at(alloc, record, first.saturating_add(8))?,
        columns: text_at(alloc, record, first.saturating_add(9))?,
        meta: text_at(alloc, record, first.saturating_add(10))?,
    })
}
