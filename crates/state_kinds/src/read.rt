// Reading a text of the state store.
ghost use Rattle.std.specs.Prelude.{◌≡◌, ◌≢◌, Ok, Err, None, Some, map, is_some, nat_lt, IfErr, IfOk, OnOk};
ghost use Rattle.std.specs.List.{list_any};
ghost use Rattle.std.specs.Option.{option_map};
ghost use Rattle.json_fields.specs.Answer.{IsOnly};
ghost use Rattle.state_kinds.specs.Store.{IsIndexOfStored, ReadsStore, first_fault, is_global_kind as is_global_test, is_legacy_kind as is_legacy_kind_test, is_mixed as is_mixed_test, is_of_another as is_of_another_test, is_stray, is_stream_kind as is_stream_kind_test, passes, saved_entry as saved_of, set_of as set_of_stored, store_fault, stored_ids};

use crate::form::stored_of;
use crate::once::add_once;
use crate::stored::{Stored, StoredEntry};
use crate::{SavedEntry, SavedSet};
use airbyte_message::{StateKind, StateMsg, StateObject};
use basics::{GREATEST_GENERATION, NoMemory, Sequence, StreamId};
use outside::StateFault;
use std::alloc::Global;
use stream_index::StreamIndex;

// Whether there is a state of the form before states had types.
fn is_legacy(state: &Option<StateMsg>) -> bool
    ensures { result ≡ passes is_legacy_kind_test state.now }
{
    match state {
        Some(state) => match state.kind() {
            StateKind::Legacy => true,
            StateKind::Stream { .. } => false,
            StateKind::Global { .. } => false,
        },
        None => false,
    }
}

// Whether there is a state of one stream.
fn is_stream(state: &Option<StateMsg>) -> bool
    ensures { result ≡ passes is_stream_kind_test state.now }
{
    match state {
        Some(state) => match state.kind() {
            StateKind::Stream { .. } => true,
            StateKind::Global { .. } => false,
            StateKind::Legacy => false,
        },
        None => false,
    }
}

// Whether there is a state of all streams.
fn is_global(state: &Option<StateMsg>) -> bool
    ensures { result ≡ passes is_global_test state.now }
{
    match state {
        Some(state) => match state.kind() {
            StateKind::Global { .. } => true,
            StateKind::Stream { .. } => false,
            StateKind::Legacy => false,
        },
        None => false,
    }
}

// Whether there is a state of a stream other than this.
fn is_of_another(id: &StreamId, state: &Option<StateMsg>) -> bool
    ensures { result ≡ passes (is_of_another_test id.now) state.now }
{
    match state {
        Some(state) => match state.kind() {
            StateKind::Stream { id: other, .. } => id != other,
            StateKind::Global { .. } => false,
            StateKind::Legacy => false,
        },
        None => false,
    }
}

// Whether a generation is above the limit.
fn is_too_large(entries: &[StoredEntry]) -> bool
    ensures { result ≡ list_any (λ entry. nat_lt GREATEST_GENERATION entry.generation) entries.now }
{
    entries
        .iter()
        .any(|entry| entry.generation > GREATEST_GENERATION)
}

// Whether an entry has a state of the form before states had types.
fn has_legacy(entries: &[StoredEntry]) -> bool
    ensures { result ≡ list_any (λ entry. passes is_legacy_kind_test entry.state) entries.now }
{
    entries.iter().any(|entry| is_legacy(&entry.state))
}

// Whether an entry has a state.
fn has_state(entries: &[StoredEntry]) -> bool
    ensures { result ≡ list_any (λ entry. is_some entry.state) entries.now }
{
    entries.iter().any(|entry| entry.state.is_some())
}

// Whether an entry has a state of all streams.
fn has_global(entries: &[StoredEntry]) -> bool
    ensures { result ≡ list_any (λ entry. passes is_global_test entry.state) entries.now }
{
    entries.iter().any(|entry| is_global(&entry.state))
}

// Whether an entry has a state of another stream.
fn has_stray(entries: &[StoredEntry]) -> bool
    ensures { result ≡ list_any is_stray entries.now }
{
    entries
        .iter()
        .any(|entry| is_of_another(&entry.id, &entry.state))
}

// Whether a state of all streams stands beside one of a stream, or a state in a place of the other kind.
fn is_mixed(stored: &Stored) -> bool
    ensures { result ≡ is_mixed_test stored.now }
{
    let entries = stored.entries.as_slice();
    (stored.global.is_some() && has_state(entries))
        || (has_global(entries) || is_stream(&stored.global))
}

// The fault of a store's text by the checks before the last.
fn first_fault_of(stored: &Stored) -> Option<StateFault>
    ensures { result ≡ first_fault stored.now }
{
    if is_too_large(stored.entries.as_slice()) {
        return Some(StateFault::TooLarge);
    }
    if has_legacy(stored.entries.as_slice()) || is_legacy(&stored.global) {
        return Some(StateFault::Legacy);
    }
    if is_mixed(stored) {
        return Some(StateFault::Mixed);
    }
    None
}

// The index of the entries' streams, `None` where one stands twice.
fn index_of(alloc: Global, entries: &[StoredEntry]) -> Result<Option<StreamIndex>, NoMemory>
    ensures { IfOk result (λ found. IsIndexOfStored (stored_ids entries.now) found) }
{
    let mut index = StreamIndex::new(alloc);
    for entry in entries {
        if !add_once(alloc, &mut index, Some(&entry.id))? {
            return Ok(None);
        }
    }
    Ok(Some(index))
}

// The object of a state.
fn object_of(state: Option<StateMsg>) -> Option<StateObject>
    ensures { result ≡ option_map (λ state. state.object) state }
{
    match state {
        Some(state) => Some(state.into_object()),
        None => None,
    }
}

// What is saved of an entry.
fn saved_entry(entry: StoredEntry) -> SavedEntry
    ensures { result ≡ saved_of entry }
{
    let StoredEntry {
        id,
        generation,
        state,
    } = entry;
    SavedEntry {
        id,
        generation,
        state: object_of(state),
    }
}

// What is saved of these entries.
fn saved_entries(alloc: Global, entries: Sequence<StoredEntry>) -> Result<Vec<SavedEntry>, NoMemory>
    ensures { IfOk result (λ saved. saved.items ≡ map saved_of entries) }
{
    let mut saved = Vec::with_capacity(alloc, entries.len())?;
    for entry in entries.into_vec() {
        saved.push(saved_entry(entry))?;
    }
    Ok(saved)
}

// The index of the entries' streams, or the fault of a store's text.
fn checked(alloc: Global, stored: &Stored) -> Result<StreamIndex, StateFault>
    ensures sound { OnOk result (store_fault stored.now ≡ None) }
    ensures index { IfOk result (λ index. IsIndexOfStored (stored_ids stored.now.entries) (Some index)) }
    ensures refused { IfErr result (λ fault. fault ≢ StateFault.NoMemory → store_fault stored.now ≡ Some fault) }
{
    if let Some(fault) = first_fault_of(stored) {
        return Err(fault);
    }
    let Some(index) = index_of(alloc, stored.entries.as_slice())? else {
        return Err(StateFault::Twice);
    };
    if has_stray(stored.entries.as_slice()) {
        return Err(StateFault::Twice);
    }
    Ok(index)
}

// The set of what a store's text holds, where no check fails.
fn set_of(alloc: Global, stored: Stored, index: StreamIndex) -> Result<SavedSet, NoMemory>
    requires sound { store_fault stored ≡ None }
    requires index { IsIndexOfStored (stored_ids stored.entries) (Some index) }
    ensures { IfOk result (λ set. set ≡ set_of_stored stored) }
{
    let Stored { entries, global } = stored;
    let saved = saved_entries(alloc, entries)?;
    Ok(SavedSet::of(saved, index, object_of(global)))
}

/// Reads a text of the state store; an empty text is the empty set. The checks go in this order: the form and the version,
/// the generations, states of the form before states had types, the kinds, and streams that stand twice.
pub fn read_store(alloc: Global, text: &[u8]) -> Result<SavedSet, StateFault>
    ensures read { IfOk result (λ set. IsOnly (ReadsStore text.now) (Ok set)) }
    ensures refused { IfErr result (λ fault. fault ≢ StateFault.NoMemory → IsOnly (ReadsStore text.now) (Err fault)) }
{
    if text.is_empty() {
        return Ok(SavedSet::new(alloc));
    }
    let Some(stored) = stored_of(alloc, text)? else {
        return Err(StateFault::NotJson);
    };
    match checked(alloc, &stored) {
        Ok(index) => Ok(set_of(alloc, stored, index)?),
        Err(fault) => Err(fault),
    }
}
