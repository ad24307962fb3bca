//! Streams by name in constant time: some streams, each once, and the place of each.
#![tactic(auto)]

ghost use Rattle.std.specs.Prelude.{◌≡◌, ◌≤◌, ◌++◌, [], ◌∷◌, List, ℕ, Some, Contains, length, take, slice_get, IfSome, IfNone, IfOk, OnOk, OnErr, IsTrue, ◌↔◌};
ghost use Rattle.stream_index.specs.Distinct.{AreDistinct};

use basics::{NoMemory, StreamId};
use indexmap::IndexSet;
use std::alloc::Global;
use std::marker::Model;

/// Some streams in order, each once. The place of one is found in constant time, whatever their number.
#[derive(Drop)]
pub struct StreamIndex {
    ids: IndexSet<StreamId>,
}

impl Model for StreamIndex {
    ghost use Rattle.std.specs.Prelude.{List};
    ghost use Rattle.basics.specs.declared.stream.StreamId.{StreamId};

    ghost Value = { List StreamId };

    ghost view = { λ index. index.ids.keys };
}

impl StreamIndex {
    /// No streams. It takes no memory until it grows.
    pub fn new(alloc: Global) -> Self
        ensures { result ≡ [] }
    {
        StreamIndex {
            ids: IndexSet::new(alloc),
        }
    }

    /// How many streams there are.
    pub fn len(&self) -> usize
        ensures len { result ≡ length self.now }
        ensures distinct { AreDistinct self.now }
    {
        self.ids.len()
    }

    /// The streams, in order.
    pub fn as_slice(&self) -> &[StreamId]
        ensures ids { result.now ≡ self.now }
        ensures distinct { AreDistinct self.now }
    {
        self.ids.as_slice()
    }

    /// The place of a stream, `None` exactly where it is not there.
    pub fn find(&self, id: &StreamId) -> Option<usize>
        ensures found { IfSome result (λ place. slice_get self.now place ≡ Some id.now) }
        ensures none { IfNone result ((place : ℕ) → ¬ (slice_get self.now place ≡ Some id.now)) }
    {
        self.ids.get_index_of(id)
    }

    /// Puts a stream behind the others; `false`, and nothing changes, where it is there already.
    pub fn add(&mut self, id: StreamId) -> Result<bool, NoMemory>
        ensures added { IfOk result (λ added. IsTrue added → self.new ≡ self.old ++ id ∷ []) }
        ensures new { IfOk result (λ added. IsTrue added ↔ ((place : ℕ) → ¬ (slice_get self.old place ≡ Some id))) }
        ensures there { IfOk result (λ added. ¬ IsTrue added → self.new ≡ self.old) }
        ensures err { OnErr result (self.new ≡ self.old) }
    {
        let (_, added) = self.ids.insert_full(id)?;
        Ok(added)
    }

    /// Takes out all streams but the first `count`.
    pub fn truncate(&mut self, count: usize)
        ensures { self.new ≡ take count self.old }
    {
        self.ids.truncate(count);
    }
}
