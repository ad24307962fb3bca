// The tables of a store as the streams of a source.
ghost use Rattle.std.specs.Prelude.{◌≡◌, ◌≢◌, IfNone, IfOk, IfSome, IfErr, length};
ghost use Rattle.outside.specs.declared.status.Status.TheVariants as status;
ghost use Rattle.table_feed.specs.Source.{IsStartOf, ListsRows, UnfitIn, row_status};
ghost use Rattle.table_feed.specs.Start.{IsStartBlob};
ghost use Rattle.table_source.specs.Table.{rows_of};

use crate::blob::{behind_of, first_blob_of, is_start_blob};
use basics::{Bytes, Copies, Name, NoMemory, Sequence, StreamNo};
use catalog::ConfStream;
use outside::{CatalogFault, Fault, NumberedRow, RowStore, StateFault, Status};
use row_store::all_rows;
use source_lines::{OpenStream, SourceFeed, StreamSource};
use std::alloc::Global;
use table_config::TableConfig;
use table_source::{Keying, ListFault, TableRows, keying_of, list_table};
use value_order::Value;

// What a fault of a store of rows makes of a feed.
fn row_fault(fault: Fault) -> Status
    ensures { result ≡ row_status fault }
{
    match fault {
        Fault::Failed => Status::RowFault,
        Fault::NoMemory => Status::NoMemory,
    }
}

// How the rows of a stream are ordered, behind which values it starts, and the blob before its first row.
#[derive(Drop)]
struct Start {
    keying: Keying,
    behind: Option<Sequence<Value>>,
    blob: Bytes,
}

// Where a stream starts in its table; `None` where it cannot start so.
fn start_at(
    alloc: Global,
    stream: &ConfStream,
    blob: &Option<Bytes>,
) -> Result<Option<Start>, NoMemory>
    ensures start { IfOk result (λ found. IfSome found (IsStartOf stream.now blob.now)) }
    ensures none { IfOk result (λ found. IfNone found (¬ IsStartBlob (length stream.now.key) blob.now)) }
{
    let keying = keying_of(alloc, stream)?;
    let Some(behind) = behind_of(alloc, &keying, blob)? else {
        return Ok(None);
    };
    let blob = first_blob_of(alloc, blob)?;
    Ok(Some(Start {
        keying,
        behind,
        blob,
    }))
}

// The rows of a stream, from where it starts.
fn listed(
    alloc: Global,
    number: StreamNo,
    every: u32,
    start: Start,
    rows: &[NumberedRow],
) -> Result<OpenStream<TableRows>, Status>
    ensures opened { IfOk result (λ found. ListsRows every start rows.now (record { every = found.every; blob = found.blob; rows = rows_of found.rows })) }
    ensures refused { IfErr result (UnfitIn number rows.now) }
{
    match list_table(alloc, &start.keying, &start.behind, rows) {
        Ok(rows) => Ok(OpenStream {
            every,
            blob: start.blob,
            rows,
        }),
        Err(ListFault::Unfit(row)) => Err(Status::BadRow {
            stream: number,
            row,
        }),
        Err(ListFault::NoMemory) => Err(Status::NoMemory),
    }
}

/// The tables that a configuration names, in a store of rows.
#[derive(Drop)]
pub struct TableSource<R: RowStore + Drop> {
    pub rows: R,
    pub config: TableConfig,
}

/// The lines of tables.
pub type TableFeed<R> = SourceFeed<TableSource<R>>;

impl<R: RowStore + Drop> StreamSource for TableSource<R> {
    ghost use Rattle.table_feed.specs.Source.{OpensTable, StartsWith};
    ghost use Rattle.table_config.specs.Tables.{is_table};

    type Start = Option<Bytes>;

    type Rows = TableRows;

    ghost Starts = { StartsWith };

    ghost Opens = { λ source. OpensTable (R.seen source.rows).rows source.config.tables };

    ghost seen = { λ source. record { is_known = is_table source.config.tables; faults = (R.seen source.rows).faults } };

    fn knows(&self, name: &Name) -> bool {
        self.config.tables.find(name.as_str()).is_some()
    }

    fn start_of(
        alloc: Global,
        stream: &ConfStream,
        blob: &Option<Bytes>,
    ) -> Result<Option<Option<Bytes>>, NoMemory> {
        if is_start_blob(alloc, blob, stream.key.len())? {
            Ok(Some(blob.copy(alloc)?))
        } else {
            Ok(None)
        }
    }

    fn make_ready(&mut self, _alloc: Global) -> Result<(), Status> {
        match self.rows.open_rows(self.config.database.as_str()) {
            Ok(()) => Ok(()),
            Err(fault) => Err(row_fault(fault)),
        }
    }

    fn open_stream(
        &mut self,
        alloc: Global,
        number: StreamNo,
        stream: &ConfStream,
        start: &Option<Bytes>,
    ) -> Result<OpenStream<TableRows>, Status> {
        let Some(entry) = self.config.tables.find(stream.id.name.as_str()) else {
            return Err(Status::BadCatalog(CatalogFault::Missing { stream: number }));
        };
        let every = entry.every;
        let start = match start_at(alloc, stream, start) {
            Ok(Some(start)) => start,
            Ok(None) => return Err(Status::BadState(StateFault::Blob)),
            Err(NoMemory) => return Err(Status::NoMemory),
        };
        match all_rows(alloc, &mut self.rows, stream.id.name.as_str()) {
            Ok(rows) => listed(alloc, number, every, start, rows.as_slice()),
            Err(fault) => Err(row_fault(fault)),
        }
    }
}
