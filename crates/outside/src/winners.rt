// The winners of a side.
ghost use Rattle.std.specs.Prelude.{◌≡◌, [], OnOk};
ghost use Rattle.std.specs.Option.{option_copied};
ghost use Rattle.outside.specs.Winners.{put_winner, put_winners, winner_in, still_waiting};

use crate::winner_map::WinnerMap;
use crate::{RawRow, RawRowList};
use basics::NoMemory;
use std::alloc::Global;
use std::marker::Model;

/// The winners of a side, which contracts see as the list of them in order of their keys. A winner is found, and put in
/// its place, in logarithmic time.
///
/// Rows are taken in all together or not at all. Those that could not be put in their places for want of memory wait
/// beside the others, and are winners all the same.
#[derive(Drop)]
pub struct Winners {
    placed: WinnerMap,
    // The next to be placed is the last.
    waiting: Vec<RawRow>,
}

impl Model for Winners {
    ghost use Rattle.std.specs.Prelude.{List};
    ghost use Rattle.outside.specs.Winners.{still_waiting};
    ghost use Rattle.outside.specs.declared.event.RawRow.{RawRow};

    ghost Value = { List RawRow };

    ghost view = { λ winners. still_waiting winners.placed winners.waiting.items };
}

// Puts the rows that wait in their places, as far as there is memory.
fn settle(alloc: Global, placed: &mut WinnerMap, waiting: &mut Vec<RawRow>) -> Result<(), NoMemory>
    ensures winners { still_waiting placed.new waiting.new.items ≡ still_waiting placed.old waiting.old.items }
    ensures settled { OnOk result (waiting.new.items ≡ []) }
{
    while let Some(row) = waiting.pop() {
        if let Err(row) = placed.put(alloc, row) {
            waiting.push_reserved(row);
            return Err(NoMemory);
        }
    }
    Ok(())
}

impl Winners {
    ghost use Rattle.std.specs.Prelude.{◌≡◌, [], IfOk, OnOk, OnErr};
    ghost use Rattle.std.specs.Option.{option_copied};
    ghost use Rattle.outside.specs.Winners.{put_winners, winner_in};

    /// No winners. They take no memory until they grow.
    pub fn new(alloc: Global) -> Self
        ensures { result ≡ [] }
    {
        Winners {
            placed: WinnerMap::new(alloc),
            waiting: Vec::new(alloc),
        }
    }

    /// Puts each of these rows in the place of its key's, the first row first: all of them, or none.
    pub fn put(&mut self, alloc: Global, rows: RawRowList) -> Result<(), NoMemory>
        ensures ok { OnOk result (self.new ≡ put_winners self.old rows) }
        ensures err { OnErr result (self.new ≡ self.old) }
    {
        settle(alloc, &mut self.placed, &mut self.waiting)?;
        let mut rows = rows.into_vec();
        rows.reverse();
        self.waiting = rows;
        let _ = settle(alloc, &mut self.placed, &mut self.waiting);
        Ok(())
    }

    /// The winner of a key.
    pub fn get(&self, key: &[u8]) -> Option<&RawRow>
        ensures { option_copied result ≡ winner_in self.now key.now }
    {
        for row in &self.waiting {
            if row.key.as_slice() == key {
                return Some(row);
            }
        }
        self.placed.get(key)
    }

    /// A copy of the winners, in order of their keys. While rows wait for memory there is none.
    pub fn copied(&self, alloc: Global) -> Result<RawRowList, NoMemory>
        ensures { IfOk result (λ copied. copied ≡ self.now) }
    {
        if !self.waiting.is_empty() {
            return Err(NoMemory);
        }
        self.placed.copied(alloc)
    }

    /// The winners, in order of their keys. While rows wait for memory there are none.
    pub fn into_rows(self, alloc: Global) -> Result<RawRowList, NoMemory>
        ensures { IfOk result (λ rows. rows ≡ self) }
    {
        if !self.waiting.is_empty() {
            return Err(NoMemory);
        }
        self.placed.into_rows(alloc)
    }
}
