// The kinds of columns.

/// What the values of a column are.
#[derive(Clone, Copy, Debug, PartialEq, Eq)]
pub enum ColumnType {
    Text,
    Bool,
    /// Whole numbers from -2^63 to 2^63 - 1.
    Whole,
    Number,
    /// Strings that may be instants.
    Instant,
    Json,
}
