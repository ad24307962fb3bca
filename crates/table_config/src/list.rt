// The tables of a configuration, by name.
use crate::config::TableEntry;
use basics::{NoMemory, Sequence};
use name_index::NameIndex;
use std::alloc::Global;
use std::marker::Model;

/// The tables of a configuration, each of another name. One is found by its name in constant time.
#[derive(Drop)]
pub struct TableEntryList {
    entries: Sequence<TableEntry>,
    names: NameIndex,
}

impl Model for TableEntryList {
    ghost use Rattle.std.specs.Prelude.{◌≡◌, List};
    ghost use Rattle.table_config.specs.Tables.{HoldsTables};
    ghost use Rattle.table_config.specs.declared.config.TableEntry.{TableEntry};

    ghost Value = { List TableEntry };

    ghost view = { λ list. list.entries };

    ghost invariant = { λ list. HoldsTables list.entries list.names };
}

impl TableEntryList {
    ghost use Rattle.std.specs.Prelude.{◌≡◌, [], IfOk, option_copied};
    ghost use Rattle.table_config.specs.Tables.{table_named, with_table};

    /// No tables.
    pub fn new(alloc: Global) -> Self
        ensures { result ≡ [] }
    {
        TableEntryList {
            entries: Sequence::new(alloc),
            names: NameIndex::new(alloc),
        }
    }

    /// A table behind the others; it is passed over where one of them has its name.
    pub fn with(self, alloc: Global, entry: TableEntry) -> Result<Self, NoMemory>
        ensures { IfOk result (λ list. list ≡ with_table self entry) }
    {
        let TableEntryList {
            mut entries,
            mut names,
        } = self;
        match names.find(entry.name.as_str()) {
            Some(_place) => Ok(TableEntryList { entries, names }),
            None => {
                names.add(alloc, entry.name.as_str())?;
                entries.push(entry)?;
                Ok(TableEntryList { entries, names })
            }
        }
    }

    /// The tables, in order.
    pub fn as_slice(&self) -> &[TableEntry]
        ensures { result.now ≡ self.now }
    {
        self.entries.as_slice()
    }

    /// The table of a name.
    pub fn find(&self, name: &str) -> Option<&TableEntry>
        ensures { option_copied result ≡ table_named name.now self.now }
    {
        match self.names.find(name) {
            Some(place) => Some(self.entries.at(place)),
            None => None,
        }
    }
}
