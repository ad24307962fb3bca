// Rows in a map, each under its key.
ghost use Rattle.std.specs.Prelude.{◌≡◌, [], IfOk, OnOk, IfErr};
ghost use Rattle.std.specs.Option.{option_copied};
ghost use Rattle.outside.specs.Winners.{put_winner, winner_in};

use crate::{RawRow, RawRowList};
use basics::{Copies, NoMemory};
use std::alloc::Global;
use std::collections::BTreeMap;
use std::marker::Model;

/// Rows by their keys, of each key one, which contracts see as the list of them in order of the keys.
#[derive(Drop)]
pub struct WinnerMap {
    rows: BTreeMap<Vec<u8>, RawRow>,
}

impl Model for WinnerMap {
    ghost use Rattle.std.specs.Prelude.{List};
    ghost use Rattle.std.specs.BTreeMap.{values};
    ghost use Rattle.outside.specs.WinnerMap.{AreUnderKeys};
    ghost use Rattle.outside.specs.declared.event.RawRow.{RawRow};

    ghost Value = { List RawRow };

    ghost view = { λ map. values map.rows };

    ghost invariant = { λ map. AreUnderKeys map.rows.entries };
}

impl WinnerMap {
    /// No rows. They take no memory until they grow.
    pub fn new(alloc: Global) -> Self
        ensures { result ≡ [] }
    {
        WinnerMap {
            rows: BTreeMap::new(alloc),
        }
    }

    /// Puts a row in the place of its key's; where there is no memory for it, it is given back.
    pub fn put(&mut self, alloc: Global, row: RawRow) -> Result<(), RawRow>
        ensures ok { OnOk result (self.new ≡ put_winner self.old row) }
        ensures err { IfErr result (λ back. (back ≡ row) × (self.new ≡ self.old)) }
    {
        let Ok(key) = Vec::from_slice(alloc, row.key.as_slice()) else {
            return Err(row);
        };
        match self.rows.insert(key, row) {
            Ok(_) => Ok(()),
            Err(failed) => Err(failed.value.1),
        }
    }

    /// The row of a key.
    pub fn get(&self, key: &[u8]) -> Option<&RawRow>
        ensures { option_copied result ≡ winner_in self.now key.now }
    {
        self.rows.get(key)
    }

    /// A copy of the rows, in order of their keys.
    pub fn copied(&self, alloc: Global) -> Result<RawRowList, NoMemory>
        ensures { IfOk result (λ copied. copied ≡ self.now) }
    {
        let mut copied = RawRowList::with_capacity(alloc, self.rows.len())?;
        for row in self.rows.values() {
            copied.push(row.copy(alloc)?)?;
        }
        Ok(copied)
    }

    /// The rows, in order of their keys.
    pub fn into_rows(self, alloc: Global) -> Result<RawRowList, NoMemory>
        ensures { IfOk result (λ rows. rows ≡ self) }
    {
        Ok(RawRowList::from_vec(self.rows.into_values().collect(alloc)?))
    }
}
