// Reading a text of CSV.
ghost use Rattle.std.specs.Prelude.{◌≡◌, ℕ, length, nat_eq, Ok, Err, IfOk, IfErr};
ghost use Rattle.csv.specs.Reading.{error_kind};
ghost use Rattle.csv.specs.Records.{fields_of};
ghost use Rattle.csv_sheet.specs.Sheet.{sheet_in};
ghost use Rattle.csv_sheet.specs.Reads.{ReadsRow, fault_at};
ghost use Rattle.csv_sheet.specs.declared.read.SheetFault.TheVariants as fault;

use crate::sheet::{Sheet, push_row};
use basics::NoMemory;
use csv::{Error, ErrorKind, Reader, ReaderBuilder, StringRecord};
use std::alloc::Global;

/// Why a text is no sheet.
#[derive(Clone, Copy, Debug, PartialEq, Eq)]
pub enum SheetFault {
    /// The record with this number, from 1, does not fit; 0 is the header.
    Misfit(u64),
    NoMemory,
}

impl From<NoMemory> for SheetFault {
    ghost use Rattle.std.specs.Prelude.{◌≡◌};
    ghost use Rattle.csv_sheet.specs.declared.read.SheetFault.TheVariants as fault;

    ghost from_gives = { λ _ found. found ≡ fault.NoMemory };

    fn from(_: NoMemory) -> Self {
        SheetFault::NoMemory
    }
}

// Why the record with this number was not read: it is no text, or memory was wanting.
fn fault_of(error: &Error, number: u64) -> SheetFault
    ensures { result ≡ fault_at number (error_kind error.now) }
{
    match error.kind() {
        ErrorKind::Utf8 { .. } => SheetFault::Misfit(number),
        _ => SheetFault::NoMemory,
    }
}

// Reads the next record, which has this number; `false` where there is none.
fn next_row(
    reader: &mut Reader<&[u8]>,
    row: &mut StringRecord,
    number: u64,
) -> Result<bool, SheetFault>
    ensures { ReadsRow number result reader.old (fields_of row.new) reader.new }
{
    match reader.read_record(row) {
        Ok(true) => Ok(true),
        Ok(false) => Ok(false),
        Err(error) => Err(fault_of(&error, number)),
    }
}

// Whether a record has a field for each column.
fn is_whole(row: &StringRecord, header: &StringRecord) -> bool
    ensures { result ≡ nat_eq (length (fields_of row.now)) (length (fields_of header.now)) }
{
    row.len() == header.len()
}

/// Reads a file's whole text. Each byte is read once, up to the first record that does not fit.
pub fn read_sheet(alloc: Global, text: &[u8]) -> Result<Sheet, SheetFault>
    ensures read { IfOk result (λ sheet. sheet_in text.now ≡ Ok sheet) }
    ensures refused { IfErr result (λ why. (row : ℕ) → why ≡ fault.Misfit row → sheet_in text.now ≡ Err row) }
{
    let mut reader = ReaderBuilder::new()
        .has_headers(false)
        .flexible(true)
        .from_reader(alloc, text);
    let mut header = StringRecord::new(alloc);
    let mut cells = StringRecord::new(alloc);
    if !next_row(&mut reader, &mut header, 0)? {
        return Ok(Sheet::new(StringRecord::new(alloc), cells, 0));
    }
    let mut row = StringRecord::new(alloc);
    for count in 0..usize::MAX {
        let number = count as u64 + 1;
        if !next_row(&mut reader, &mut row, number)? {
            return Ok(Sheet::new(header, cells, count));
        }
        if !is_whole(&row, &header) {
            return Err(SheetFault::Misfit(number));
        }
        push_row(&mut cells, &row)?;
    }
    Err(SheetFault::NoMemory)
}
