// Values that are bound to a statement.
use outside::Fault;
use sqlite::types::ValueRef;
use std::alloc::Global;

/// The most bytes of a text or a blob. The stock library takes no longer one.
pub const LONGEST_VALUE: usize = 1_000_000_000;

/// A value that is bound to a statement.
///
/// What a database cannot hold is `Failed` where it is bound, and nothing of it is stored: a whole number from 2^63 on,
/// and a text or a blob of more than `LONGEST_VALUE` bytes.
#[derive(Clone, Copy, Debug)]
pub enum Parameter<'a> {
    Null,
    Integer(u64),
    /// A text in UTF-8.
    Text(&'a [u8]),
    Blob(&'a [u8]),
}

// The bytes, where they are not too many.
fn within_limit(bytes: &[u8]) -> Result<&[u8], Fault> {
    if bytes.len() > LONGEST_VALUE {
        return Err(Fault::Failed);
    }
    Ok(bytes)
}

fn value_of(parameter: Parameter<'_>) -> Result<ValueRef<'_>, Fault> {
    match parameter {
        Parameter::Null => Ok(ValueRef::Null),
        Parameter::Integer(number) => match i64::try_from(number) {
            Ok(number) => Ok(ValueRef::Int(number)),
            Err(_) => Err(Fault::Failed),
        },
        Parameter::Text(bytes) => Ok(ValueRef::Text(within_limit(bytes)?)),
        Parameter::Blob(bytes) => Ok(ValueRef::Blob(within_limit(bytes)?)),
    }
}

/// The values of these parameters, as the library takes them.
pub fn values_of<'a>(
    alloc: Global,
    parameters: &[Parameter<'a>],
) -> Result<Vec<ValueRef<'a>>, Fault> {
    let mut values = Vec::with_capacity(alloc, parameters.len())?;
    for parameter in parameters {
        values.push(value_of(*parameter)?)?;
    }
    Ok(values)
}
