// The rows of a table in the order in which a stream writes them.
ghost use Rattle.std.specs.Prelude.{◌≡◌, ℕ, List, None, Some, Err, IfOk, IfSome, IfNone, IsPermutation, IsSorted, codes};
ghost use Rattle.std.specs.List.{AllZip};
ghost use Rattle.json_span.specs.Members.{IsValue};
ghost use Rattle.value_order.specs.declared.value.Value.TheVariants.{Null};
ghost use Rattle.column_types.specs.Values.{IsData};
ghost use Rattle.table_source.specs.Keyed.{IsBodyOf, IsCursorPart, IsKeyPart, IsKeyed, IsPartAt, IsRowBody, row_order};
ghost use Rattle.table_source.specs.Table.{AreInOrder, IsFirstUnfit, KeepsBehind, is_behind};

use crate::keyed::{KeyedRow, RowPart, compare_to};
use crate::keying::{DEEPEST_ROW, Keying};
use crate::table_rows::TableRows;
use basics::{Bytes, NoMemory, Path, PathList, Sequence};
use column_types::{Columns, is_instant, text_along, value_along};
use json_fields::cut;
use json_squeeze::{squeeze, squeezes_values};
use outside::NumberedRow;
use std::alloc::Global;
use std::cmp::Ordering;
use value_order::Value;

// The part where nothing stands.
fn null_part(alloc: Global) -> Result<RowPart, NoMemory>
    ensures { IfOk result (λ part. part ≡ record { value = Null; text = codes "null" }) }
{
    Ok(RowPart {
        value: Value::Null,
        text: Bytes::copy_of(alloc, b"null")?,
    })
}

// The part at a path of a row's body.
fn part_at(alloc: Global, body: &[u8], path: &Path, is_instant: bool) -> Result<RowPart, NoMemory>
    requires value { IsValue body.now }
    requires object { IsData body.now }
    ensures { IfOk result (IsPartAt body.now path.now is_instant) }
{
    match text_along(alloc, body, path.as_slice())? {
        Some(text) => Ok(RowPart {
            value: value_along(alloc, text, &[], is_instant)?,
            text: Bytes::copy_of(alloc, text)?,
        }),
        None => null_part(alloc),
    }
}

// The cursor of a row.
fn cursor_part(alloc: Global, keying: &Keying, body: &[u8]) -> Result<RowPart, NoMemory>
    requires value { IsValue body.now }
    requires object { IsData body.now }
    ensures { IfOk result (IsCursorPart keying.now.columns body.now keying.now.cursor) }
{
    match &keying.cursor {
        Some(path) => part_at(alloc, body, path, is_instant(&keying.columns, path)),
        None => null_part(alloc),
    }
}

// The key of a row.
fn key_parts(
    alloc: Global,
    columns: &Columns,
    paths: &PathList,
    body: &[u8],
) -> Result<Sequence<RowPart>, NoMemory>
    requires value { IsValue body.now }
    requires object { IsData body.now }
    ensures { IfOk result (AllZip (IsKeyPart columns.now body.now) paths.now) }
{
    let mut parts = Sequence::with_capacity(alloc, paths.len())?;
    for path in paths.as_slice() {
        let part = part_at(alloc, body, path, is_instant(columns, path))?;
        parts.push(part)?;
    }
    Ok(parts)
}

// A row's body without white space; `None` where it is no object, or nests too deep.
fn row_body(alloc: Global, text: &[u8]) -> Result<Option<Bytes>, NoMemory>
    ensures body { IfOk result (λ found. IfSome found (IsBodyOf text.now)) }
    ensures none { IfOk result (λ found. IfNone found (¬ IsRowBody text.now)) }
{
    match cut(alloc, text, DEEPEST_ROW)? {
        Some(_members) => {
            squeezes_values();
            Ok(Some(squeeze(alloc, text)?))
        }
        None => Ok(None),
    }
}

// A row as it is ordered; `None` where its body is no object, or nests too deep.
fn keyed_row(
    alloc: Global,
    keying: &Keying,
    row: &NumberedRow,
) -> Result<Option<KeyedRow>, NoMemory>
    ensures keyed { IfOk result (λ found. IfSome found (IsKeyed keying.now row.now)) }
    ensures none { IfOk result (λ found. IfNone found (¬ IsRowBody row.now.body)) }
{
    let Some(body) = row_body(alloc, row.body.as_slice())? else {
        return Ok(None);
    };
    let cursor = cursor_part(alloc, keying, body.as_slice())?;
    let key = key_parts(alloc, &keying.columns, &keying.key, body.as_slice())?;
    Ok(Some(KeyedRow {
        id: row.id,
        body,
        cursor,
        key,
    }))
}

// Whether a row stands behind the values that a stream starts behind.
fn stands_behind(behind: &Option<Sequence<Value>>, row: &KeyedRow) -> bool
    ensures { result ≡ is_behind behind.now row.now }
{
    match behind {
        Some(place) => compare_to(row, place.as_slice()) == Ordering::Greater,
        None => true,
    }
}

/// Why the rows of a table are not listed.
#[derive(Clone, Copy, Debug, PartialEq, Eq)]
pub enum ListFault {
    /// The row with this id is no object, or nests too deep; it is the first.
    Unfit(u64),
    NoMemory,
}

impl From<NoMemory> for ListFault {
    ghost use Rattle.std.specs.Prelude.{◌≡◌};
    ghost use Rattle.table_source.specs.declared.rows.ListFault.{ListFault};
    ghost use Rattle.table_source.specs.declared.rows.ListFault.TheVariants as fault;

    ghost from_gives = { λ _ found. found ≡ fault.NoMemory };

    fn from(_: NoMemory) -> Self {
        ListFault::NoMemory
    }
}

// The rows of a table that stand behind a start, in the table's order.
fn keyed_behind(
    alloc: Global,
    keying: &Keying,
    behind: &Option<Sequence<Value>>,
    rows: &[NumberedRow],
) -> Result<Sequence<KeyedRow>, ListFault>
    ensures kept { IfOk result (KeepsBehind keying.now behind.now rows.now) }
    ensures unfit { (id : ℕ) → result ≡ Err (ListFault.Unfit id) → IsFirstUnfit rows.now id }
{
    let mut kept = Sequence::new(alloc);
    for row in rows {
        match keyed_row(alloc, keying, row)? {
            Some(keyed) => {
                if stands_behind(behind, &keyed) {
                    kept.push(keyed)?;
                }
            }
            None => return Err(ListFault::Unfit(row.id)),
        }
    }
    Ok(kept)
}

// The rows in their order.
fn sorted(rows: Sequence<KeyedRow>) -> Result<Sequence<KeyedRow>, NoMemory>
    ensures same { IfOk result (λ made. IsPermutation rows made) }
    ensures sorted { IfOk result (λ made. IsSorted row_order made) }
{
    let mut items = rows.into_vec();
    items.sort()?;
    Ok(Sequence::from_vec(items))
}

/// The rows of a table that stand behind a start, in the order in which a stream writes them.
pub fn list_table(
    alloc: Global,
    keying: &Keying,
    behind: &Option<Sequence<Value>>,
    rows: &[NumberedRow],
) -> Result<TableRows, ListFault>
    ensures listed { IfOk result (AreInOrder keying.now behind.now rows.now) }
    ensures unfit { (id : ℕ) → result ≡ Err (ListFault.Unfit id) → IsFirstUnfit rows.now id }
{
    let kept = keyed_behind(alloc, keying, behind, rows)?;
    Ok(TableRows::new(sorted(kept)?))
}
