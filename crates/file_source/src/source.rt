// Files as the streams of a source.
ghost use Rattle.std.specs.Prelude.{◌≡◌, ◌≢◌, ◌≤◌, ◌⊎◌, Ok, Err, IfOk, IfErr, length, option_copied};
ghost use Rattle.outside.specs.declared.status.Status.TheVariants as status;
ghost use Rattle.file_source.specs.Blob.{first_blob};
ghost use Rattle.file_source.specs.Files.{file_named, listed_in, opened_sheet};
ghost use Rattle.file_source.specs.Rows.{rows_behind};
ghost use Rattle.csv_sheet.specs.Sheet.{sheet_in};

use crate::blob::{put_row_blob, start_of};
use crate::rows::FileRows;
use basics::{Bytes, Copies, Name, NoMemory, Sequence, StreamNo};
use catalog::ConfStream;
use csv_sheet::{Sheet, SheetFault, read_sheet};
use outside::{CatalogFault, StateFault, Status};
use source_lines::{OpenStream, SourceFeed, StreamSource};
use std::alloc::Global;

/// A file's whole text, which is a stream of its name.
#[derive(Debug, Drop)]
pub struct FileText {
    pub name: Name,
    /// After how many records a state is due, from 1 to 1,000,000.
    pub every: u32,
    pub text: Bytes,
}

/// The files of a source; of two with one name the first counts.
pub type FileTextList = Sequence<FileText>;

/// Where a stream of a file starts.
#[derive(Debug, Drop)]
pub struct FileStart {
    /// The blob of its state, as it stood.
    pub blob: Option<Bytes>,
    /// The number of the record behind which it starts.
    pub behind: u64,
}

// The blob of a state before any record.
fn blob_before(alloc: Global, blob: &Option<Bytes>) -> Result<Bytes, NoMemory>
    ensures { IfOk result (λ made. made ≡ first_blob blob.now) }
{
    match blob {
        Some(held) => held.copy(alloc),
        None => {
            let mut made = Bytes::new(alloc);
            put_row_blob(&mut made, 0)?;
            Ok(made)
        }
    }
}

// The file that is the stream of this name.
fn find_file<'a>(files: &'a [FileText], name: &Name) -> Option<&'a FileText>
    ensures { option_copied result ≡ file_named name.now files.now }
{
    for file in files {
        if file.name.as_str() == name.as_str() {
            return Some(file);
        }
    }
    None
}

// What a stream has of a sheet, where that has as many records.
fn rows_of_sheet(
    alloc: Global,
    sheet: Sheet,
    every: u32,
    start: &FileStart,
) -> Result<OpenStream<FileRows>, NoMemory>
    requires { start.now.behind ≤ length sheet.records }
    ensures { IfOk result (λ found. listed_in every start.now sheet ≡ Ok (record { every = found.every; blob = found.blob; rows = rows_behind found.rows })) }
{
    let blob = blob_before(alloc, &start.blob)?;
    let rows = FileRows::new(alloc, sheet, start.behind as usize)?;
    Ok(OpenStream { every, blob, rows })
}

// What a stream has of a sheet.
fn open_sheet(
    alloc: Global,
    sheet: Sheet,
    every: u32,
    start: &FileStart,
) -> Result<OpenStream<FileRows>, Status>
    ensures opened { IfOk result (λ found. listed_in every start.now sheet ≡ Ok (record { every = found.every; blob = found.blob; rows = rows_behind found.rows })) }
    ensures refused { IfErr result (λ why. (why ≡ status.NoMemory) ⊎ (listed_in every start.now sheet ≡ Err why)) }
    ensures no_refusal { IfErr result (λ why. why ≢ status.Ok) }
{
    if start.behind > sheet.len() as u64 {
        return Err(Status::BadState(StateFault::OutOfRange));
    }
    match rows_of_sheet(alloc, sheet, every, start) {
        Ok(opened) => Ok(opened),
        Err(NoMemory) => Err(Status::NoMemory),
    }
}

// What the stream with this number has of a file.
fn open_file(
    alloc: Global,
    file: &FileText,
    number: StreamNo,
    start: &FileStart,
) -> Result<OpenStream<FileRows>, Status>
    ensures opened { IfOk result (λ found. opened_sheet file.now.every number start.now (sheet_in file.now.text) ≡ Ok (record { every = found.every; blob = found.blob; rows = rows_behind found.rows })) }
    ensures refused { IfErr result (λ why. (why ≡ status.NoMemory) ⊎ (opened_sheet file.now.every number start.now (sheet_in file.now.text) ≡ Err why)) }
    ensures no_refusal { IfErr result (λ why. why ≢ status.Ok) }
{
    match read_sheet(alloc, file.text.as_slice()) {
        Ok(sheet) => open_sheet(alloc, sheet, file.every, start),
        Err(SheetFault::Misfit(row)) => Err(Status::BadRow {
            stream: number,
            row,
        }),
        Err(SheetFault::NoMemory) => Err(Status::NoMemory),
    }
}

/// Files as the streams of a source.
#[derive(Debug, Drop)]
pub struct FileSource {
    pub files: FileTextList,
}

impl StreamSource for FileSource {
    ghost use Rattle.std.specs.Prelude.{◌≡◌, is_some};
    ghost use Rattle.file_source.specs.Files.{StartsAt, file_named, opening};

    type Start = FileStart;

    type Rows = FileRows;

    ghost Starts = { StartsAt };

    ghost Opens = { λ source number stream start found. found ≡ opening source.files number stream start };

    ghost seen = { λ source. record { is_known = λ name. is_some (file_named name source.files); faults = 0 } };

    fn knows(&self, name: &Name) -> bool {
        find_file(self.files.as_slice(), name).is_some()
    }

    fn start_of(
        alloc: Global,
        _stream: &ConfStream,
        blob: &Option<Bytes>,
    ) -> Result<Option<FileStart>, NoMemory> {
        match start_of(alloc, blob)? {
            Some(behind) => {
                let blob = blob.copy(alloc)?;
                Ok(Some(FileStart { blob, behind }))
            }
            None => Ok(None),
        }
    }

    fn make_ready(&mut self, _alloc: Global) -> Result<(), Status> {
        Ok(())
    }

    fn open_stream(
        &mut self,
        alloc: Global,
        number: StreamNo,
        stream: &ConfStream,
        start: &FileStart,
    ) -> Result<OpenStream<FileRows>, Status> {
        match find_file(self.files.as_slice(), &stream.id.name) {
            Some(file) => open_file(alloc, file, number, start),
            None => Err(Status::BadCatalog(CatalogFault::Missing { stream: number })),
        }
    }
}

/// A feed over files.
pub type FileFeed = SourceFeed<FileSource>;
