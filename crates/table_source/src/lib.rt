//! Tables of rows as a source.
#![tactic(auto)]

mod keyed;
mod keying;
mod rows;
mod said;
mod table_rows;

pub use keyed::{KeyedRow, RowPart, compare_to, compare_values};
pub use keying::{DEEPEST_ROW, Keying, keying_of};
pub use rows::{ListFault, list_table};
pub use said::{discovered, failed, specified, succeeded};
pub use table_rows::TableRows;
