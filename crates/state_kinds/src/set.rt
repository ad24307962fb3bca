// A set of saved states.
use crate::SavedEntry;
use crate::begin::{drop_if, entry_in, grow, has_states as some_have_states, is_changed, renew};
use airbyte_message::{StateKind, StateMsg, StateObject};
use basics::{NoMemory, StreamId};
use catalog::{Configured, GenList};
use outside::StateFault;
use std::alloc::Global;
use std::marker::Model;
use stream_index::StreamIndex;

/// The streams of a sync in the order in which they first came, each once, with its generation and perhaps its state; and
/// perhaps a state of all streams. States are of one kind: there is none of a stream beside one of all streams.
#[derive(Drop)]
pub struct SavedSet {
    entries: Vec<SavedEntry>,
    index: StreamIndex,
    // Whether an entry has a state.
    is_by_stream: bool,
    global: Option<StateObject>,
}

impl Model for SavedSet {
    ghost use Rattle.state_kinds.specs.Saved.{Saved, IsKept};

    ghost Value = { Saved };

    ghost view = { λ set. record { entries = set.entries.items; global = set.global } };

    ghost invariant = { λ set. IsKept (record { entries = set.entries.items; global = set.global }) set.index set.is_by_stream };
}

impl SavedSet {
    ghost use Rattle.std.specs.Prelude.{◌≡◌, length, is_some, true, false, IfErr, OnErr, OnOk};
    ghost use Rattle.std.specs.Option.{option_copied};
    ghost use Rattle.state_kinds.specs.Saved.{IsIndexOf, IsSaved, entry_of, has_states, nothing_saved, state_of};
    ghost use Rattle.state_kinds.specs.Changes.{begun, given_of, put_global as put_for_all, put_into, put_stream as put_for_stream};

    /// The empty set.
    pub fn new(alloc: Global) -> Self
        ensures { result ≡ nothing_saved }
    {
        SavedSet {
            entries: Vec::new(alloc),
            index: StreamIndex::new(alloc),
            is_by_stream: false,
            global: None,
        }
    }

    // The set of entries whose streams the index has, and of a state of all streams where no stream has one.
    pub(crate) fn of(
        entries: Vec<SavedEntry>,
        index: StreamIndex,
        global: Option<StateObject>,
    ) -> Self
        requires index { IsIndexOf entries.items index }
        requires one_kind { is_some global ≡ true → has_states entries.items ≡ false }
        ensures { result ≡ record { entries = entries.items; global = global } }
    {
        let is_by_stream = some_have_states(&entries);
        SavedSet {
            entries,
            index,
            is_by_stream,
            global,
        }
    }

    /// The streams, in the order in which they first came.
    pub fn entries(&self) -> &[SavedEntry]
        ensures entries { result.now ≡ self.now.entries }
        ensures saved { IsSaved self.now }
    {
        &self.entries
    }

    /// The state of all streams.
    pub fn global(&self) -> &Option<StateObject>
        ensures { result.now ≡ self.now.global }
    {
        &self.global
    }

    /// What is saved of a stream, in constant time.
    pub fn entry(&self, id: &StreamId) -> Option<&SavedEntry>
        ensures { option_copied result ≡ entry_of self.now.entries id.now }
    {
        entry_in(&self.entries, &self.index, id)
    }

    /// The state of a stream, in constant time.
    pub fn state(&self, id: &StreamId) -> Option<&StateObject>
        ensures { option_copied result ≡ state_of self.now.entries id.now }
    {
        match self.entry(id) {
            Some(entry) => entry.state.as_ref(),
            None => None,
        }
    }

    /// An attempt begins: each configured stream gets its generation, one for each in the catalog's order. Where that differs
    /// from the one that the set had, or the set did not have the stream, the stream's state is dropped, and so is a state of
    /// all streams. Entries of other streams stay. Without memory nothing changes.
    pub fn begin(
        &mut self,
        alloc: Global,
        configured: &Configured,
        gens: &GenList,
    ) -> Result<(), NoMemory>
        requires { length gens.now ≡ length configured.now }
        ensures ok { OnOk result (self.new ≡ begun (given_of configured.now gens.now) self.old) }
        ensures err { OnErr result (self.new ≡ self.old) }
    {
        let count = self.entries.len();
        let is_changed = is_changed(&self.entries, &self.index, configured, gens);
        grow(alloc, &mut self.entries, &mut self.index, configured, gens)?;
        renew(&mut self.entries, count, configured, gens);
        drop_if(is_changed, &mut self.global);
        self.is_by_stream = some_have_states(&self.entries);
        Ok(())
    }

    // Puts a state in the place of that of its stream.
    fn put_stream(&mut self, id: &StreamId, object: StateObject) -> Result<(), StateFault>
        ensures ok { OnOk result (put_for_stream id.now object self.old ≡ Ok self.new) }
        ensures refused { IfErr result (λ fault. put_for_stream id.now object self.old ≡ Err fault) }
        ensures err { OnErr result (self.new ≡ self.old) }
    {
        if self.global.is_some() {
            return Err(StateFault::Mixed);
        }
        match self.index.find(id) {
            Some(place) => {
                self.entries[place].state = Some(object);
                self.is_by_stream = true;
                Ok(())
            }
            None => Err(StateFault::Unknown),
        }
    }

    // Puts a state of all streams in the place of the one before.
    fn put_global(&mut self, object: StateObject) -> Result<(), StateFault>
        ensures ok { OnOk result (put_for_all object self.old ≡ Ok self.new) }
        ensures refused { IfErr result (λ fault. put_for_all object self.old ≡ Err fault) }
        ensures err { OnErr result (self.new ≡ self.old) }
    {
        if self.is_by_stream {
            return Err(StateFault::Mixed);
        }
        self.global = Some(object);
        Ok(())
    }

    /// Puts a state in the place of its lane's, in constant time. It is refused as Legacy; as Mixed, where a state of the other
    /// kind is held; or as Unknown, where it is of a stream without an entry. Then nothing changes. It takes no memory.
    pub fn put(&mut self, state: StateMsg) -> Result<(), StateFault>
        ensures ok { OnOk result (put_into state self.old ≡ Ok self.new) }
        ensures refused { IfErr result (λ fault. put_into state self.old ≡ Err fault) }
        ensures err { OnErr result (self.new ≡ self.old) }
    {
        let (object, kind) = state.into_parts();
        match kind {
            StateKind::Stream { id, .. } => self.put_stream(&id, object),
            StateKind::Global { .. } => self.put_global(object),
            StateKind::Legacy => Err(StateFault::Legacy),
        }
    }
}
