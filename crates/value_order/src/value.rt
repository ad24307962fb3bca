// The classes of values.
use crate::Decimal;
use basics::{Bytes, Name};

/// A value of a record, as far as order goes. The classes stand in rising order.
#[derive(Debug, Drop)]
pub enum Value {
    Null,
    False,
    True,
    Number(Decimal),
    Text(Name),
    /// Nanoseconds since 1970.
    Instant(i128),
    /// Bytes that are told apart as they are. Of a record they are the text of an array, an object or a number that is too
    /// long, without white space outside strings.
    Other(Bytes),
}
