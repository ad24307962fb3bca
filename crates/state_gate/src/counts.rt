// How many records were accepted since the last state of each lane.
ghost use Rattle.std.specs.Prelude.{◌≡◌, ℕ, ◌+◌, ◌-◌, ◌<◌, ◌^◌, IfOk, length, vec_len, replicate, slice_index, slice_set};
ghost use Rattle.state_gate.specs.Views.{AreCountsTo, HasLane};
ghost use Rattle.state_gate.specs.Counts.{taken_from, without_own, without_all};

use crate::Lane;
use basics::{NoMemory, StreamNo};
use std::alloc::Global;
use std::mem;

#[derive(Debug, Drop)]
pub struct Counts {
    /// Of each stream, since the last state of that stream.
    pub of_streams: Vec<u64>,
    /// Of all streams, since the last state of all streams.
    pub of_all: u64,
    pub streams: u32,
}

impl Counts {
    pub fn new(alloc: Global, streams: u32) -> Result<Self, NoMemory>
        ensures own { IfOk result (λ counts. counts.of_streams.items ≡ replicate streams 0) }
        ensures len { IfOk result (λ counts. vec_len counts.of_streams ≡ streams) }
        ensures all { IfOk result (λ counts. counts.of_all ≡ 0) }
        ensures streams { IfOk result (λ counts. counts.streams ≡ streams) }
    {
        Ok(Counts {
            of_streams: vec![in alloc; 0; streams as usize]?,
            of_all: 0,
            streams,
        })
    }

    /// Counts a record.
    pub fn add(&mut self, stream: StreamNo)
        requires stream { stream < length self.old.of_streams.items }
        requires room { (most : ℕ) × (most < 2 ^ 64 - 1) × AreCountsTo most self.old.of_streams.items self.old.of_all }
        ensures own { self.new.of_streams.items ≡ slice_set self.old.of_streams.items stream (slice_index self.old.of_streams.items stream + 1) }
        ensures len { vec_len self.new.of_streams ≡ vec_len self.old.of_streams }
        ensures all { self.new.of_all ≡ self.old.of_all + 1 }
        ensures streams { self.new.streams ≡ self.old.streams }
    {
        self.of_streams[stream as usize] += 1;
        self.of_all += 1;
    }

    /// The count of a lane, which begins anew.
    pub fn take(&mut self, lane: Lane) -> u64
        requires { HasLane (length self.old.of_streams.items) lane }
        ensures taken { result ≡ taken_from self.old.of_streams.items self.old.of_all lane }
        ensures own { self.new.of_streams.items ≡ without_own self.old.of_streams.items lane }
        ensures len { vec_len self.new.of_streams ≡ vec_len self.old.of_streams }
        ensures all { self.new.of_all ≡ without_all self.old.of_all lane }
        ensures streams { self.new.streams ≡ self.old.streams }
    {
        match lane {
            Lane::Global => mem::replace(&mut self.of_all, 0),
            Lane::Stream(stream) => mem::replace(&mut self.of_streams[stream as usize], 0),
        }
    }
}
