// Rows as they are ordered.
ghost use Rattle.std.specs.Prelude.{◌≡◌, map};
ghost use Rattle.table_source.specs.Keyed.{row_order, values_of, values_order};

use basics::{Bytes, Sequence};
use std::cmp::Ordering;
use value_order::{Value, compare};

/// A value of a row, and its text.
#[derive(Debug, Drop)]
pub struct RowPart {
    pub value: Value,
    /// As it stands in the row's body; `null` where nothing stands there.
    pub text: Bytes,
}

/// A row of a table with what it is ordered by.
#[derive(Debug, Drop)]
pub struct KeyedRow {
    /// From 1, and below 2^63.
    pub id: u64,
    /// A JSON object without white space outside its strings.
    pub body: Bytes,
    pub cursor: RowPart,
    /// One for each path of the key.
    pub key: Sequence<RowPart>,
}

// Which of two lists of values comes first: the first that differ decide, and else the lengths do.
fn compare_parts(a: &[RowPart], b: &[RowPart]) -> Ordering
    ensures { result ≡ values_order (map (λ part. part.value) a.now) (map (λ part. part.value) b.now) }
{
    let mut at = 0;
    while at < a.len() && at < b.len() {
        match compare(&a[at].value, &b[at].value) {
            Ordering::Equal => at += 1,
            apart => return apart,
        }
    }
    a.len().cmp(&b.len())
}

/// Which of two rows comes first by their cursors and keys.
pub fn compare_values(a: &KeyedRow, b: &KeyedRow) -> Ordering
    ensures { result ≡ values_order (values_of a.now) (values_of b.now) }
{
    match compare(&a.cursor.value, &b.cursor.value) {
        Ordering::Equal => compare_parts(a.key.as_slice(), b.key.as_slice()),
        apart => apart,
    }
}

// Which of the parts of a key and values comes first.
fn compare_key(a: &[RowPart], b: &[Value]) -> Ordering
    ensures { result ≡ values_order (map (λ part. part.value) a.now) b.now }
{
    let mut at = 0;
    while at < a.len() && at < b.len() {
        match compare(&a[at].value, &b[at]) {
            Ordering::Equal => at += 1,
            apart => return apart,
        }
    }
    a.len().cmp(&b.len())
}

/// How a row stands to values, of which the first is a cursor and the others are a key.
pub fn compare_to(row: &KeyedRow, place: &[Value]) -> Ordering
    ensures { result ≡ values_order (values_of row.now) place.now }
{
    match place.split_first() {
        Some((cursor, key)) => match compare(&row.cursor.value, cursor) {
            Ordering::Equal => compare_key(row.key.as_slice(), key),
            apart => apart,
        },
        None => Ordering::Greater,
    }
}

impl PartialEq for KeyedRow {
    ghost use Rattle.std.specs.Cmp.{eq_by_cmp_equiv, partial_equiv_from_equiv};
    ghost use Rattle.std.specs.Ordering.{eq_by_cmp};
    ghost use Rattle.table_source.specs.Total.{rows_total};

    ghost eq = { λ row other. eq_by_cmp row_order row other };

    ghost laws = { partial_equiv_from_equiv (eq_by_cmp_equiv rows_total) };

    fn eq(&self, other: &Self) -> bool {
        self.cmp(other) == Ordering::Equal
    }
}

impl Eq for KeyedRow {
    ghost use Rattle.std.specs.Cmp.{eq_by_cmp_equiv};
    ghost use Rattle.table_source.specs.Total.{rows_total};

    ghost laws = { eq_by_cmp_equiv rows_total };
}

impl PartialOrd for KeyedRow {
    ghost use Rattle.std.specs.Prelude.{Some};
    ghost use Rattle.std.specs.Cmp.{partial_order_from_total};
    ghost use Rattle.table_source.specs.Total.{rows_total};

    ghost partial_cmp = { λ row other. Some (row_order row other) };

    ghost laws = { partial_order_from_total rows_total };

    fn partial_cmp(&self, other: &Self) -> Option<Ordering> {
        Some(self.cmp(other))
    }
}

/// Rows are ordered by their cursors, then by their keys, and then by their ids.
impl Ord for KeyedRow {
    ghost use Rattle.std.specs.Prelude.{refl};
    ghost use Rattle.table_source.specs.Total.{rows_total};

    ghost cmp = { row_order };

    ghost total = { rows_total };

    ghost matches_partial_cmp = { λ row other. refl };

    ghost matches_eq = { λ row other. refl };

    fn cmp(&self, other: &Self) -> Ordering {
        match compare_values(self, other) {
            Ordering::Equal => self.id.cmp(&other.id),
            apart => apart,
        }
    }
}
