// The rows of a table, as a stream writes them.
ghost use Rattle.std.specs.Prelude.{◌≡◌, ◌<◌, ◌++◌, List, length, map, slice_get, Some, OnOk};
ghost use Rattle.json_write.specs.Objects.{list_text};
ghost use Rattle.source_lines.specs.Checkpoints.{Row};
ghost use Rattle.table_source.specs.Blob.{blob_of};
ghost use Rattle.table_source.specs.Table.{rows_of};

use crate::keyed::{KeyedRow, RowPart, compare_values};
use basics::{Bytes, NoMemory, Sequence};
use json_write::{put_comma, put_key};
use source_lines::ListedRows;
use std::marker::Model;

/// Rows in the order in which a stream writes them.
#[derive(Drop)]
pub struct TableRows {
    rows: Sequence<KeyedRow>,
}

impl Model for TableRows {
    ghost use Rattle.std.specs.Prelude.{List};
    ghost use Rattle.table_source.specs.declared.keyed.KeyedRow.{KeyedRow};

    ghost Value = { List KeyedRow };

    ghost view = { λ table. table.rows };
}

impl TableRows {
    // These rows, in their order.
    pub fn new(rows: Sequence<KeyedRow>) -> Self
        ensures { result ≡ rows }
    {
        TableRows { rows }
    }
}

// Puts the array of the texts of a key.
fn put_texts(line: &mut Bytes, parts: &[RowPart]) -> Result<(), NoMemory>
    ensures { OnOk result (line.new ≡ line.old ++ list_text (map (λ part. part.text) parts.now)) }
{
    line.push(b'[')?;
    for (i, part) in parts.iter().enumerate() {
        put_comma(line, i == 0)?;
        line.extend(part.text.as_slice())?;
    }
    line.push(b']')
}

// Puts the blob of a state behind a row.
fn put_blob_of(row: &KeyedRow, line: &mut Bytes) -> Result<(), NoMemory>
    ensures { OnOk result (line.new ≡ line.old ++ blob_of row.now) }
{
    put_key(line, b'{', "cursor")?;
    line.extend(row.cursor.text.as_slice())?;
    put_key(line, b',', "key")?;
    put_texts(line, row.key.as_slice())?;
    line.push(b'}')
}

impl ListedRows for TableRows {
    ghost rows = { rows_of };

    fn len(&self) -> usize {
        self.rows.len()
    }

    fn put_body(&self, place: usize, line: &mut Bytes) -> Result<(), NoMemory> {
        line.extend(self.rows.at(place).body.as_slice())
    }

    fn put_blob(&self, place: usize, line: &mut Bytes) -> Result<(), NoMemory> {
        put_blob_of(self.rows.at(place), line)
    }

    fn closes(&self, place: usize) -> bool {
        let count = self.rows.len();
        let next = place + 1;
        if next == count {
            return true;
        }
        compare_values(self.rows.at(place), self.rows.at(next)).is_ne()
    }
}
