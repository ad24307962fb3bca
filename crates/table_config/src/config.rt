// The configuration of a source of tables.
ghost use Rattle.std.specs.Prelude.{◌≡◌, Ok, Err, IfErr, IfOk};

use crate::list::TableEntryList;
use basics::{Bytes, Name, Path};

/// The most records between two states.
pub const MOST_EVERY: u64 = 1_000_000;

/// After how many records a state is due where the configuration does not say.
pub const USUAL_EVERY: u32 = 1_000;

/// The arrays and objects of a schema nest at most so deep.
pub const DEEPEST_SCHEMA: usize = 100;

/// A table that is a stream of its name.
#[derive(Debug, Drop)]
pub struct TableEntry {
    pub name: Name,
    /// The JSON schema of its rows, an object, as it stood.
    pub schema: Bytes,
    /// The name of the property that is the cursor.
    pub cursor: Option<Name>,
    /// The names of the properties that are the primary key.
    pub key: Path,
    /// After how many records a state is due, from 1 to 1,000,000.
    pub every: u32,
}

/// What a source of tables copies.
#[derive(Drop)]
pub struct TableConfig {
    /// The name of the store that the tables are in.
    pub database: Name,
    pub tables: TableEntryList,
}
