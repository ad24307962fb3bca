// The text of the state store, and the array of states that a source is started with.
ghost use Rattle.std.specs.Prelude.{◌≡◌, [], ◌∷◌, ◌++◌, IfOk, OnOk, map};
ghost use Rattle.std.specs.List.{filter_map};
ghost use Rattle.std.specs.Option.{option_copied};
ghost use Rattle.json_write.specs.Objects.{list_text, named, object_text, part_before};
ghost use Rattle.catalog.specs.Reading.{ids_of};
ghost use Rattle.state_kinds.specs.Saved.{state_of};
ghost use Rattle.state_kinds.specs.Texts.{AddsItem, entry_parts, held_text, states_text, store_text};

use crate::{SavedEntry, SavedSet};
use airbyte_message::StateObject;
use basics::{Bytes, NoMemory};
use catalog::Configured;
use json_write::{
    put_comma, put_key, put_member, put_number_member, put_optional_string, put_string_member,
};
use std::alloc::Global;

// Puts a further member that is a state's object, or null.
fn put_held(text: &mut Bytes, name: &str, held: &Option<StateObject>) -> Result<(), NoMemory>
    ensures { OnOk result (text.new ≡ text.old ++ 44 ∷ part_before (named name.now (held_text held.now)) []) }
{
    match held {
        Some(object) => put_member(text, b',', name, object.as_slice()),
        None => put_member(text, b',', name, b"null"),
    }
}

// Puts an entry.
fn put_entry(text: &mut Bytes, entry: &SavedEntry) -> Result<(), NoMemory>
    ensures { OnOk result (text.new ≡ text.old ++ object_text (entry_parts entry.now)) }
{
    put_string_member(text, b'{', "name", entry.id.name.as_str())?;
    put_optional_string(text, "namespace", &entry.id.namespace)?;
    put_number_member(text, b',', "generation", entry.generation)?;
    put_held(text, "state", &entry.state)?;
    text.push(b'}')?;
    Ok(())
}

// Puts an array of entries.
fn put_entries(text: &mut Bytes, entries: &[SavedEntry]) -> Result<(), NoMemory>
    ensures { OnOk result (text.new ≡ text.old ++ list_text (map (λ entry. object_text (entry_parts entry)) entries.now)) }
{
    text.push(b'[')?;
    for (i, entry) in entries.iter().enumerate() {
        put_comma(text, i == 0)?;
        put_entry(text, entry)?;
    }
    text.push(b']')?;
    Ok(())
}

/// Writes the text of the state store, version 1: the entries in the order in which the streams first came, each with its
/// state or `null`, and the state of all streams or `null`.
pub fn write_store(alloc: Global, set: &SavedSet) -> Result<Bytes, NoMemory>
    ensures { IfOk result (λ text. text ≡ store_text set.now) }
{
    let mut text = Bytes::new(alloc);
    put_number_member(&mut text, b'{', "version", 1)?;
    put_key(&mut text, b',', "streams")?;
    put_entries(&mut text, set.entries())?;
    put_held(&mut text, "global", set.global())?;
    text.push(b'}')?;
    Ok(text)
}

// Puts an object, and a comma before it unless it is the first; or nothing, where there is none. It hands out whether the next
// one is the first.
fn put_state(
    text: &mut Bytes,
    is_first: bool,
    state: Option<&StateObject>,
) -> Result<bool, NoMemory>
    ensures { IfOk result (λ first. AddsItem is_first (option_copied state.entry) text.old first text.new) }
{
    match state {
        Some(object) => {
            put_comma(text, is_first)?;
            text.extend(object.as_slice())?;
            Ok(false)
        }
        None => Ok(is_first),
    }
}

// The array of one state.
fn one_state(alloc: Global, object: &StateObject) -> Result<Bytes, NoMemory>
    ensures { IfOk result (λ text. text ≡ list_text (object.now ∷ [])) }
{
    let mut text = Bytes::with_capacity(alloc, object.len().saturating_add(2))?;
    text.push(b'[')?;
    text.extend(object.as_slice())?;
    text.push(b']')?;
    Ok(text)
}

// Puts the array of the configured streams' states, in the catalog's order.
fn put_states(text: &mut Bytes, set: &SavedSet, configured: &Configured) -> Result<(), NoMemory>
    ensures { OnOk result (text.new ≡ text.old ++ list_text (filter_map (state_of set.now.entries) (ids_of configured.now))) }
{
    text.push(b'[')?;
    let mut is_first = true;
    for n in 0..configured.len() {
        let state = set.state(&configured.stream(n).id);
        is_first = put_state(text, is_first, state)?;
    }
    text.push(b']')?;
    Ok(())
}

/// Writes the array of states that a source of these streams is started with: the state of all streams alone, or else the
/// states of the configured streams, in the catalog's order. Streams outside the catalog are left out.
pub fn write_list(alloc: Global, set: &SavedSet, configured: &Configured) -> Result<Bytes, NoMemory>
    ensures { IfOk result (λ text. text ≡ states_text set.now (ids_of configured.now)) }
{
    match set.global() {
        Some(object) => one_state(alloc, object),
        None => {
            let mut text = Bytes::new(alloc);
            put_states(&mut text, set, configured)?;
            Ok(text)
        }
    }
}
