// The records of a text of CSV.
ghost use Rattle.std.specs.Prelude.{◌≡◌, ◌++◌, OnOk};
ghost use Rattle.csv.specs.Records.{fields_of};

use basics::NoMemory;
use csv::StringRecord;
use std::marker::Model;

/// The records of a file, and the names of their columns. Every field is text.
#[derive(Drop)]
pub struct Sheet {
    // The names; nothing where the text has no record.
    header: StringRecord,
    // The fields of all records under it, one behind the other.
    cells: StringRecord,
    // How many records those are.
    count: usize,
}

impl Model for Sheet {
    ghost use Rattle.std.specs.Prelude.{◌≡◌, ◌*◌, length};
    ghost use Rattle.csv.specs.Records.{fields_of};
    ghost use Rattle.csv_sheet.specs.Sheet.{Sheet as SheetSeen};
    ghost use Rattle.csv_sheet.specs.Cells.{records_cut};

    ghost Value = { SheetSeen };

    ghost view = { λ sheet. record { header = fields_of sheet.header; records = records_cut (length (fields_of sheet.header)) sheet.count (fields_of sheet.cells) } };

    ghost invariant = { λ sheet. length (fields_of sheet.cells) ≡ sheet.count * length (fields_of sheet.header) };
}

impl Sheet {
    ghost use Rattle.std.specs.Prelude.{◌≡◌, ◌*◌, ◌<◌, Some, length, slice_get};
    ghost use Rattle.csv.specs.Records.{fields_of};
    ghost use Rattle.csv_sheet.specs.Sheet.{Fields};
    ghost use Rattle.csv_sheet.specs.Cells.{records_cut};

    // So many records under a header.
    pub(crate) fn new(header: StringRecord, cells: StringRecord, count: usize) -> Self
        requires { length (fields_of cells) ≡ count * length (fields_of header) }
        ensures { result ≡ record { header = fields_of header; records = records_cut (length (fields_of header)) count (fields_of cells) } }
    {
        Sheet {
            header,
            cells,
            count,
        }
    }

    /// How many columns there are.
    pub fn columns(&self) -> usize
        ensures { result ≡ length self.now.header }
    {
        self.header.len()
    }

    /// The name of a column.
    pub fn name(&self, column: usize) -> &str
        requires { column < length self.now.header }
        ensures { slice_get self.now.header column ≡ Some result.now }
    {
        match self.header.get(column) {
            Some(name) => name,
            None => unreachable!(),
        }
    }

    /// How many records there are under the header.
    pub fn len(&self) -> usize
        ensures { result ≡ length self.now.records }
    {
        self.count
    }

    /// The field of a record at a column.
    pub fn field(&self, row: usize, column: usize) -> &str
        requires row { row < length self.now.records }
        requires column { column < length self.now.header }
        ensures { (fields : Fields) → slice_get self.now.records row ≡ Some fields → slice_get fields column ≡ Some result.now }
    {
        let _all = self.cells.len();
        match self.cells.get(row * self.header.len() + column) {
            Some(field) => field,
            None => unreachable!(),
        }
    }
}

// Puts the fields of a record behind the others.
pub(crate) fn push_row(cells: &mut StringRecord, row: &StringRecord) -> Result<(), NoMemory>
    ensures { OnOk result (fields_of cells.new ≡ fields_of cells.old ++ fields_of row.now) }
{
    for place in 0..row.len() {
        let Some(field) = row.get(place) else {
            unreachable!()
        };
        cells.push_field(field)?;
    }
    Ok(())
}
