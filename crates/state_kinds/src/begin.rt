// What the beginning of an attempt does to the entries of a set.
ghost use Rattle.std.specs.Prelude.{◌≡◌, ◌≤◌, ◌++◌, length, map, take, drop, is_some, None, OnErr, OnOk, IfOk, if◌then◌else◌};
ghost use Rattle.std.specs.List.{list_any};
ghost use Rattle.std.specs.Option.{option_copied};
ghost use Rattle.stream_index.specs.Distinct.{AreDistinct};
ghost use Rattle.state_kinds.specs.Saved.{IsIndexOf, entry_ids, entry_of, has_states as some_has_state};
ghost use Rattle.state_kinds.specs.Changes.{added as added_entries, generation_of, given_of, is_changed as is_pair_changed, is_of, renewed, renewed_to};

use crate::SavedEntry;
use airbyte_message::StateObject;
use basics::{Copies, NoMemory, StreamId};
use catalog::{Configured, GenList};
use std::alloc::Global;
use stream_index::StreamIndex;

/// The entry of a stream, in constant time.
pub fn entry_in<'a>(
    entries: &'a [SavedEntry],
    index: &StreamIndex,
    id: &StreamId,
) -> Option<&'a SavedEntry>
    requires { IsIndexOf entries.now index.now }
    ensures { option_copied result ≡ entry_of entries.now id.now }
{
    match index.find(id) {
        Some(place) => Some(&entries[place]),
        None => None,
    }
}

// Whether there is an entry, of this generation.
fn is_of_generation(entry: Option<&SavedEntry>, generation: u64) -> bool
    ensures { result ≡ is_of generation (option_copied entry.entry) }
{
    match entry {
        Some(entry) => entry.generation == generation,
        None => false,
    }
}

/// Whether a configured stream has no entry, or one of another generation.
pub fn is_changed(
    entries: &[SavedEntry],
    index: &StreamIndex,
    configured: &Configured,
    gens: &GenList,
) -> bool
    requires index { IsIndexOf entries.now index.now }
    requires gens { length gens.now ≡ length configured.now }
    ensures { result ≡ list_any (is_pair_changed entries.now) (given_of configured.now gens.now) }
{
    for n in 0..configured.len() {
        let entry = entry_in(entries, index, &configured.stream(n).id);
        if !is_of_generation(entry, gens.at(n as usize).generation) {
            return true;
        }
    }
    false
}

// A new entry.
fn new_entry(alloc: Global, id: &StreamId, generation: u64) -> Result<SavedEntry, NoMemory>
    ensures { IfOk result (λ entry. entry ≡ record { id = id.now; generation = generation; state = None }) }
{
    Ok(SavedEntry {
        id: id.copy(alloc)?,
        generation,
        state: None,
    })
}

// New entries of the configured streams that the index does not have; it has them then. Without memory it may have some of
// them, behind the others.
fn added(
    alloc: Global,
    index: &mut StreamIndex,
    configured: &Configured,
    gens: &GenList,
) -> Result<Vec<SavedEntry>, NoMemory>
    requires distinct { AreDistinct index.old }
    requires gens { length gens.now ≡ length configured.now }
    ensures added { IfOk result (λ added. added.items ≡ added_entries (given_of configured.now gens.now) index.old) }
    ensures index { IfOk result (λ added. index.new ≡ index.old ++ entry_ids added.items) }
    ensures distinct { OnOk result (AreDistinct index.new) }
    ensures err { OnErr result (take (length index.old) index.new ≡ index.old) }
{
    let mut added = Vec::new(alloc);
    for n in 0..configured.len() {
        let id = &configured.stream(n).id;
        if index.add(id.copy(alloc)?)? {
            added.push(new_entry(alloc, id, gens.at(n as usize).generation)?)?;
        }
    }
    Ok(added)
}

// Puts new entries of the configured streams that have none behind the others. Without memory the entries are as they were,
// and the index may have more streams behind its own.
fn grow_both(
    alloc: Global,
    entries: &mut Vec<SavedEntry>,
    index: &mut StreamIndex,
    configured: &Configured,
    gens: &GenList,
) -> Result<(), NoMemory>
    requires distinct { AreDistinct index.old }
    requires gens { length gens.now ≡ length configured.now }
    ensures entries { OnOk result (entries.new.items ≡ entries.old.items ++ added_entries (given_of configured.now gens.now) index.old) }
    ensures index { OnOk result (index.new ≡ index.old ++ entry_ids (added_entries (given_of configured.now gens.now) index.old)) }
    ensures distinct { OnOk result (AreDistinct index.new) }
    ensures entries_kept { OnErr result (entries.new.items ≡ entries.old.items) }
    ensures index_front { OnErr result (take (length index.old) index.new ≡ index.old) }
{
    let mut more = added(alloc, index, configured, gens)?;
    entries.append(&mut more)?;
    Ok(())
}

/// Puts new entries of the configured streams that have none behind the others, and these streams into the index; or, without
/// memory, changes nothing.
pub fn grow(
    alloc: Global,
    entries: &mut Vec<SavedEntry>,
    index: &mut StreamIndex,
    configured: &Configured,
    gens: &GenList,
) -> Result<(), NoMemory>
    requires distinct { AreDistinct index.old }
    requires gens { length gens.now ≡ length configured.now }
    ensures entries { OnOk result (entries.new.items ≡ entries.old.items ++ added_entries (given_of configured.now gens.now) index.old) }
    ensures index { OnOk result (index.new ≡ index.old ++ entry_ids (added_entries (given_of configured.now gens.now) index.old)) }
    ensures distinct { OnOk result (AreDistinct index.new) }
    ensures entries_kept { OnErr result (entries.new.items ≡ entries.old.items) }
    ensures index_kept { OnErr result (index.new ≡ index.old) }
{
    let count = index.len();
    match grow_both(alloc, entries, index, configured, gens) {
        Ok(()) => Ok(()),
        Err(NoMemory) => {
            index.truncate(count);
            Err(NoMemory)
        }
    }
}

// The generation that a stream is given.
fn given_generation(configured: &Configured, gens: &GenList, id: &StreamId) -> Option<u64>
    requires { length gens.now ≡ length configured.now }
    ensures { result ≡ generation_of (given_of configured.now gens.now) id.now }
{
    match configured.find(id) {
        Some(n) => Some(gens.at(n as usize).generation),
        None => None,
    }
}

// Gives an entry a generation, and drops its state where it had another.
fn renew_entry(entry: &mut SavedEntry, given: Option<u64>)
    ensures { entry.new ≡ renewed_to entry.old given }
{
    if let Some(generation) = given {
        if entry.generation != generation {
            entry.generation = generation;
            entry.state = None;
        }
    }
}

/// Gives the first `count` entries the generations of their streams, where these are given one.
pub fn renew(entries: &mut Vec<SavedEntry>, count: usize, configured: &Configured, gens: &GenList)
    requires count { count ≤ length entries.old.items }
    requires gens { length gens.now ≡ length configured.now }
    ensures { entries.new.items ≡ map (renewed (given_of configured.now gens.now)) (take count entries.old.items) ++ drop count entries.old.items }
{
    for i in 0..count {
        let given = given_generation(configured, gens, &entries[i].id);
        renew_entry(&mut entries[i], given);
    }
}

/// Whether an entry has a state.
pub fn has_states(entries: &[SavedEntry]) -> bool
    ensures { result ≡ some_has_state entries.now }
{
    entries.iter().any(|entry| entry.state.is_some())
}

/// Drops a state where this is asked.
pub fn drop_if(is_dropped: bool, held: &mut Option<StateObject>)
    ensures { held.new ≡ (if is_dropped then None else held.old) }
{
    if is_dropped {
        *held = None;
    }
}
