// The rows that a statement gave.
use sqlite::Row;
use sqlite::types::ValueRef;

/// The rows that a statement gave. Rows and columns are counted from 0.
pub struct ResultSet {
    rows: Vec<Row>,
}

impl Drop for ResultSet {
    fn drop(self) {
        let ResultSet { rows: _ } = self;
    }
}

impl ResultSet {
    /// These rows.
    pub(crate) fn new(rows: Vec<Row>) -> Self {
        ResultSet { rows }
    }

    /// How many rows there are.
    pub fn len(&self) -> usize {
        self.rows.len()
    }

    /// Whether there is no row.
    pub fn is_empty(&self) -> bool {
        self.rows.is_empty()
    }

    fn value(&self, row: usize, column: usize) -> Option<ValueRef<'_>> {
        self.rows.get(row)?.get_ref(column).ok()
    }

    /// The whole number in a column, where it is not negative.
    pub fn integer(&self, row: usize, column: usize) -> Option<u64> {
        match self.value(row, column)? {
            ValueRef::Int(number) => u64::try_from(number).ok(),
            _ => None,
        }
    }

    /// Whether a column is null.
    pub fn is_null(&self, row: usize, column: usize) -> bool {
        matches!(self.value(row, column), Some(ValueRef::Null))
    }

    /// The bytes of a text in a column.
    pub fn text(&self, row: usize, column: usize) -> Option<&[u8]> {
        match self.value(row, column)? {
            ValueRef::Text(bytes) => Some(bytes),
            _ => None,
        }
    }

    /// The bytes of a blob in a column.
    pub fn blob(&self, row: usize, column: usize) -> Option<&[u8]> {
        match self.value(row, column)? {
            ValueRef::Blob(bytes) => Some(bytes),
            _ => None,
        }
    }
}
