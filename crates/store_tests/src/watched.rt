// A dock of which a test sees what it holds.
use crate::rows::{stream_a, write_rows};
use outside::{Bytes, NoMemory};
use outside_mem::MemDock;
use std::alloc::Global;

/// A dock that a test may look into.
pub trait Watched {
    /// Writes what a reader sees of the stream `a`.
    fn see(&self, alloc: Global, dedup: bool, told: &mut Bytes) -> Result<(), NoMemory>;

    /// Writes how many events there are, and how many rows were read.
    fn count(&self, alloc: Global, told: &mut Bytes) -> Result<(), NoMemory>;
}

impl Watched for MemDock {
    // of the tables that are made of the trace anew, and of those that are kept
    fn see(&self, alloc: Global, dedup: bool, told: &mut Bytes) -> Result<(), NoMemory> {
        let stream = stream_a(alloc)?;
        let made = raw_tables::tables_of(alloc, self.events())?;
        let seen = raw_tables::visible(alloc, &made, &stream, dedup)?;
        write_rows(alloc, told, seen.as_slice())?;
        let kept = raw_tables::visible(alloc, self.tables(), &stream, dedup)?;
        if kept.len() != seen.len() {
            told.extend(b" other tables")?;
        }
        Ok(())
    }

    fn count(&self, alloc: Global, told: &mut Bytes) -> Result<(), NoMemory> {
        let text = format!(in alloc; "{} events, {} read", self.events().len(), self.rows_read())?;
        told.extend(text.as_bytes())
    }
}
