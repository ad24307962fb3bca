// A configured catalog.
use crate::ConfStream;
use basics::{Copies, NoMemory, Sequence, StreamId, StreamNo};
use std::alloc::Global;
use std::marker::Model;
use stream_index::StreamIndex;

/// The streams of a sync, in their order, each once; a stream is found in constant time.
#[derive(Drop)]
pub struct Configured {
    streams: Sequence<ConfStream>,
    index: StreamIndex,
}

impl Model for Configured {
    ghost use Rattle.std.specs.Prelude.{List};
    ghost use Rattle.catalog.specs.declared.stream.ConfStream.{ConfStream};
    ghost use Rattle.catalog.specs.Indexed.{IsIndexed};

    ghost Value = { List ConfStream };

    ghost view = { λ configured. configured.streams };

    ghost invariant = { λ configured. IsIndexed configured.streams configured.index };
}

impl Configured {
    ghost use Rattle.std.specs.Prelude.{◌≡◌, ◌<◌, ◌++◌, [], ◌∷◌, ◌%◌, ℕ, Some, slice_get, length, IfOk, IfErr, OnOk, OnErr, IsTrue, ◌↔◌};
    ghost use Rattle.json_fields.specs.Answer.{IsAnswer};
    ghost use Rattle.basics.specs.declared.limits.TheConstants.{MOST_STREAMS};
    ghost use Rattle.catalog.specs.Reading.{ids_of};
    ghost use Rattle.catalog.specs.Parts.{part_of};
    ghost use Rattle.catalog.specs.Configured.{AreConfigured, IsConfigured};

    // No streams yet.
    pub(crate) fn empty(alloc: Global) -> Self
        ensures { result ≡ [] }
    {
        Configured {
            streams: Sequence::new(alloc),
            index: StreamIndex::new(alloc),
        }
    }

    // Puts a stream behind the others; `false`, and nothing changes, where its id stands there already.
    pub(crate) fn add(&mut self, alloc: Global, stream: ConfStream) -> Result<bool, NoMemory>
        requires room { length self.old < MOST_STREAMS }
        requires configured { IsConfigured stream }
        ensures added { IfOk result (λ added. IsTrue added → self.new ≡ self.old ++ stream ∷ []) }
        ensures new { IfOk result (λ added. IsTrue added ↔ ((place : ℕ) → ¬ (slice_get (ids_of self.old) place ≡ Some stream.id))) }
        ensures there { IfOk result (λ added. ¬ IsTrue added → self.new ≡ self.old) }
        ensures err { OnErr result (self.new ≡ self.old) }
    {
        let id = stream.id.copy(alloc)?;
        if !self.index.add(id)? {
            return Ok(false);
        }
        match self.streams.push(stream) {
            Ok(()) => Ok(true),
            Err(NoMemory) => {
                self.index.truncate(self.streams.len());
                Err(NoMemory)
            }
        }
    }

    /// How many streams there are.
    pub fn len(&self) -> u32
        ensures len { result ≡ length self.now }
        ensures configured { AreConfigured self.now }
    {
        self.streams.len() as u32
    }

    /// The stream with this number.
    pub fn stream(&self, n: StreamNo) -> &ConfStream
        requires { n < length self.now }
        ensures stream { slice_get self.now n ≡ Some result.now }
        ensures configured { AreConfigured self.now }
    {
        self.streams.at(n as usize)
    }

    /// The number of the stream with this id, in constant time; `None` exactly where there is none.
    pub fn find(&self, id: &StreamId) -> Option<StreamNo>
        ensures { IsAnswer (λ n. slice_get (ids_of self.now) n ≡ Some id.now) result }
    {
        match self.index.find(id) {
            Some(place) => Some(place as u32),
            None => None,
        }
    }

    /// The streams whose number, divided by `lanes`, leaves `lane`, in order.
    pub fn part(&self, alloc: Global, lanes: u32, lane: u32) -> Result<Configured, NoMemory>
        requires { lane < lanes }
        ensures { IfOk result (λ part. part ≡ part_of lanes lane self.now) }
    {
        let mut part = Configured::empty(alloc);
        for n in 0..self.len() {
            if n % lanes == lane {
                let stream = self.stream(n).copy(alloc)?;
                if !part.add(alloc, stream)? {
                    unreachable!()
                }
            }
        }
        Ok(part)
    }
}
