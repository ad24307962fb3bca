// Which of two rows of a key wins.
ghost use Rattle.std.specs.Prelude.{◌≡◌, IfOk};
ghost use Rattle.std.specs.Ordering.{is_gt};
ghost use Rattle.dedup_merge.specs.Cursors.{IsCursor};
ghost use Rattle.dedup_merge.specs.Winners.{rank};
ghost use Rattle.dedup_merge.specs.Steps.{Exceeds, candidate_of};

use basics::NoMemory;
use outside::RawRow;
use std::alloc::Global;
use std::cmp::Ordering;
use value_order::{Value, compare, read_value};

/// The value of a cursor text. A text that no value has counts as null.
pub fn cursor_value(alloc: Global, text: &[u8]) -> Result<Value, NoMemory>
    ensures { IfOk result (IsCursor text.now) }
{
    match read_value(alloc, text)? {
        Some(value) => Ok(value),
        None => Ok(Value::Null),
    }
}

// Which row comes first: by cursor, then by load, then by sequence.
fn compare_rows(row: &RawRow, value: &Value, other: &RawRow, other_value: &Value) -> Ordering
    ensures { result ≡ rank (candidate_of row.now value.now) (candidate_of other.now other_value.now) }
{
    match compare(value, other_value) {
        Ordering::Equal => match row.load.cmp(&other.load) {
            Ordering::Equal => row.seq.cmp(&other.seq),
            apart => apart,
        },
        apart => apart,
    }
}

/// Whether a row exceeds another in cursor, load and sequence.
pub fn exceeds(alloc: Global, row: &RawRow, held: &RawRow) -> Result<bool, NoMemory>
    ensures { IfOk result (Exceeds row.now held.now) }
{
    let value = cursor_value(alloc, row.cursor.as_slice())?;
    let held_value = cursor_value(alloc, held.cursor.as_slice())?;
    Ok(compare_rows(row, &value, held, &held_value) == Ordering::Greater)
}
