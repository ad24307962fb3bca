// The rows of a file, as a stream writes them.
ghost use Rattle.std.specs.Prelude.{◌≡◌, ◌<◌, ◌++◌, List, length, map, slice_get, Some, IfOk, OnOk};
ghost use Rattle.source_lines.specs.Checkpoints.{Row};
ghost use Rattle.csv_sheet.specs.Sheet.{Fields};
ghost use Rattle.file_source.specs.Rows.{body_of, key_text, rows_behind};

use crate::blob::put_row_blob;
use basics::{Bytes, BytesList, NoMemory};
use csv_sheet::Sheet;
use json_write::{put_comma, put_string};
use source_lines::ListedRows;
use std::alloc::Global;
use std::marker::Model;

/// The rows of a sheet that stand behind so many records.
#[derive(Drop)]
pub struct FileRows {
    sheet: Sheet,
    // What stands before a field of each column: its name as a JSON string, and the colon.
    keys: BytesList,
    behind: usize,
}

impl Model for FileRows {
    ghost use Rattle.std.specs.Prelude.{◌≡◌, ◌≤◌, length, map};
    ghost use Rattle.file_source.specs.Rows.{RowsSeen, key_text};

    ghost Value = { RowsSeen };

    ghost view = { λ rows. record { sheet = rows.sheet; behind = rows.behind } };

    ghost invariant = { λ rows. (rows.keys ≡ map key_text rows.sheet.header) × (rows.behind ≤ length rows.sheet.records) };
}

// What stands before a field of a column.
fn key_of(alloc: Global, name: &str) -> Result<Bytes, NoMemory>
    ensures { IfOk result (λ key. key ≡ key_text name.now) }
{
    let mut key = Bytes::new(alloc);
    put_string(&mut key, name)?;
    key.push(b':')?;
    Ok(key)
}

// What stands before the fields of each column.
fn keys_of(alloc: Global, sheet: &Sheet) -> Result<BytesList, NoMemory>
    ensures { IfOk result (λ keys. keys ≡ map key_text sheet.now.header) }
{
    let mut keys = BytesList::with_capacity(alloc, sheet.columns())?;
    for column in 0..sheet.columns() {
        let key = key_of(alloc, sheet.name(column))?;
        keys.push(key)?;
    }
    Ok(keys)
}

// Puts a record's object.
fn put_object(sheet: &Sheet, keys: &BytesList, row: usize, line: &mut Bytes) -> Result<(), NoMemory>
    requires keys { keys.now ≡ map key_text sheet.now.header }
    requires row { row < length sheet.now.records }
    ensures { OnOk result ((fields : Fields) → slice_get sheet.now.records row ≡ Some fields → line.new ≡ line.old ++ body_of sheet.now.header fields) }
{
    line.push(b'{')?;
    for column in 0..sheet.columns() {
        put_comma(line, column == 0)?;
        line.extend(keys.at(column).as_slice())?;
        put_string(line, sheet.field(row, column))?;
    }
    line.push(b'}')
}

impl FileRows {
    ghost use Rattle.std.specs.Prelude.{◌≡◌, ◌≤◌, ◌<◌, ◌+◌, ◌^◌, length, IfOk};
    ghost use Rattle.file_source.specs.Rows.{rows_behind};

    /// The rows of a sheet behind so many records.
    pub fn new(alloc: Global, sheet: Sheet, behind: usize) -> Result<Self, NoMemory>
        requires { behind ≤ length sheet.records }
        ensures { IfOk result (λ rows. rows ≡ record { sheet = sheet; behind = behind }) }
    {
        let keys = keys_of(alloc, &sheet)?;
        Ok(FileRows {
            sheet,
            keys,
            behind,
        })
    }

    // The number of the record at a place, from 0.
    fn record_at(&self, place: usize) -> usize
        requires { place < length (rows_behind self.now) }
        ensures number { result ≡ self.now.behind + place }
        ensures within { result < length self.now.sheet.records }
        ensures fits { result + 1 < 2 ^ 64 }
    {
        let _all = self.sheet.len();
        self.behind + place
    }
}

impl ListedRows for FileRows {
    ghost rows = { rows_behind };

    fn len(&self) -> usize {
        self.sheet.len() - self.behind
    }

    fn put_body(&self, place: usize, line: &mut Bytes) -> Result<(), NoMemory> {
        put_object(&self.sheet, &self.keys, self.record_at(place), line)
    }

    fn put_blob(&self, place: usize, line: &mut Bytes) -> Result<(), NoMemory> {
        put_row_blob(line, self.record_at(place) as u64 + 1)
    }

    fn closes(&self, _place: usize) -> bool {
        true
    }
}
