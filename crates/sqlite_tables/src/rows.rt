// Rows as parameters, and parameters as rows.
use outside::{Bytes, Fault, RawRow};
use sqlite_calls::{Parameter, ResultSet};
use std::alloc::Global;

/// Puts a row behind the parameters that stand.
pub fn push_row<'a>(parameters: &mut Vec<Parameter<'a>>, row: &'a RawRow) -> Result<(), Fault> {
    parameters.push(Parameter::Integer(row.load))?;
    parameters.push(Parameter::Integer(row.seq))?;
    parameters.push(Parameter::Integer(row.generation))?;
    parameters.push(Parameter::Integer(row.extracted_at))?;
    parameters.push(Parameter::Integer(row.loaded_at))?;
    parameters.push(Parameter::Text(row.raw_id.as_slice()))?;
    parameters.push(Parameter::Blob(row.key.as_slice()))?;
    parameters.push(Parameter::Blob(row.cursor.as_slice()))?;
    parameters.push(Parameter::Text(row.body.as_slice()))?;
    parameters.push(Parameter::Text(row.columns.as_slice()))?;
    parameters.push(Parameter::Text(row.meta.as_slice()))?;
    Ok(())
}

/// The parameter of a number, or null where there is none.
pub fn parameter_of(number: Option<u64>) -> Parameter<'static> {
    match number {
        Some(number) => Parameter::Integer(number),
        None => Parameter::Null,
    }
}

/// The whole number that has to stand in a column.
pub fn integer_at(found: &ResultSet, row: usize, column: usize) -> Result<u64, Fault> {
    found.integer(row, column).ok_or(Fault::Failed)
}

/// The whole number that stands in a column, or none where that is null.
pub fn optional_integer_at(
    found: &ResultSet,
    row: usize,
    column: usize,
) -> Result<Option<u64>, Fault> {
    if found.is_null(row, column) {
        return Ok(None);
    }
    Ok(Some(integer_at(found, row, column)?))
}

fn copy_of(alloc: Global, bytes: Option<&[u8]>) -> Result<Bytes, Fault> {
    match bytes {
        Some(bytes) => Ok(Bytes::copy_of(alloc, bytes)?),
        None => Err(Fault::Failed),
    }
}

/// The text that has to stand in a column.
pub fn text_at(
    alloc: Global,
    found: &ResultSet,
    row: usize,
    column: usize,
) -> Result<Bytes, Fault> {
    copy_of(alloc, found.text(row, column))
}

/// The blob that has to stand in a column.
pub fn blob_at(
    alloc: Global,
    found: &ResultSet,
    row: usize,
    column: usize,
) -> Result<Bytes, Fault> {
    copy_of(alloc, found.blob(row, column))
}

/// The row whose columns begin at the first.
pub fn row_at(alloc: Global, found: &ResultSet, row: usize) -> Result<RawRow, Fault> {
    Ok(RawRow {
        load: integer_at(found, row, 0)?,
        seq: integer_at(found, row, 1)?,
        generation: integer_at(found, row, 2)?,
        extracted_at: integer_at(found, row, 3)?,
        loaded_at: integer_at(found, row, 4)?,
        raw_id: text_at(alloc, found, row, 5)?,
        key: blob_at(alloc, found, row, 6)?,
        cursor: blob_at(alloc, found, row, 7)?,
        body: text_at(alloc, found, row, 8)?,
        columns: text_at(alloc, found, row, 9)?,
        meta: text_at(alloc, found, row, 10)?,
    })
}
